//! The messages in the files: how each is read and printed.
ghost use Rattle.std.specs.Prelude.{◌≡◌, IfOk};
ghost use Rattle.dg_desc.specs.Descs.{prop_of, comp_props_of, inst_props_of, ref_of, embed_of, child_of, children_of, inst_of, embed_inst_of, coll_inst_of};
ghost use Rattle.dg_desc.specs.Trees.{prop_tree, comp_props_tree, inst_props_tree, ref_tree, embed_tree, inst_tree, embed_inst_tree, coll_inst_tree};

use crate::check::is_named;
use crate::descs::{
    ChildDesc, CollInstDesc, CompPropsDesc, EmbedDesc, EmbedInstDesc, InstDesc, InstPropsDesc,
    Items, PropDesc, RefDesc,
};
use crate::fields::{
    put_bare, put_children, put_copies, put_position, put_rotation, put_scale3, put_text,
};
use crate::known::{FieldName, Message};
use crate::lookups::{
    last_value, position_of, rotation_of, scale3_of, text_in, text_of, type_in, unknown,
};
use crate::part::{Part, all_of, put_all};
use crate::words::type_word;
use dg_base::Str;
use dg_ptext::{Field, Tree};
use std::alloc::{AllocError, Global};

impl Part for PropDesc {
    ghost reads = { prop_of };

    ghost prints = { prop_tree };

    fn read(alloc: Global, line: u32, fields: &[Field]) -> Result<PropDesc, AllocError> {
        Ok(PropDesc {
            line,
            id: text_of(alloc, FieldName::Id, fields)?,
            value: text_of(alloc, FieldName::Value, fields)?,
            kind: type_in(last_value(FieldName::Type, fields)),
            unknown: unknown(alloc, Message::Prop, fields)?,
        })
    }

    fn put(&self, alloc: Global, out: &mut Tree) -> Result<(), AllocError> {
        put_text(alloc, out, FieldName::Id, self.id.as_str())?;
        put_text(alloc, out, FieldName::Value, self.value.as_str())?;
        put_bare(alloc, out, FieldName::Type, type_word(self.kind))?;
        put_copies(alloc, out, self.unknown.as_slice())
    }
}

impl Part for CompPropsDesc {
    ghost reads = { comp_props_of };

    ghost prints = { comp_props_tree };

    fn read(alloc: Global, line: u32, fields: &[Field]) -> Result<CompPropsDesc, AllocError> {
        Ok(CompPropsDesc {
            line,
            id: text_of(alloc, FieldName::Id, fields)?,
            properties: all_of(alloc, FieldName::Properties, fields)?,
            unknown: unknown(alloc, Message::CompProps, fields)?,
        })
    }

    fn put(&self, alloc: Global, out: &mut Tree) -> Result<(), AllocError> {
        put_text(alloc, out, FieldName::Id, self.id.as_str())?;
        put_all(
            alloc,
            out,
            FieldName::Properties,
            self.properties.as_slice(),
        )?;
        put_copies(alloc, out, self.unknown.as_slice())
    }
}

impl Part for InstPropsDesc {
    ghost reads = { inst_props_of };

    ghost prints = { inst_props_tree };

    fn read(alloc: Global, line: u32, fields: &[Field]) -> Result<InstPropsDesc, AllocError> {
        Ok(InstPropsDesc {
            line,
            id: text_of(alloc, FieldName::Id, fields)?,
            properties: all_of(alloc, FieldName::Properties, fields)?,
            unknown: unknown(alloc, Message::InstProps, fields)?,
        })
    }

    fn put(&self, alloc: Global, out: &mut Tree) -> Result<(), AllocError> {
        put_text(alloc, out, FieldName::Id, self.id.as_str())?;
        put_all(
            alloc,
            out,
            FieldName::Properties,
            self.properties.as_slice(),
        )?;
        put_copies(alloc, out, self.unknown.as_slice())
    }
}

impl Part for RefDesc {
    ghost reads = { ref_of };

    ghost prints = { ref_tree };

    fn read(alloc: Global, line: u32, fields: &[Field]) -> Result<RefDesc, AllocError> {
        Ok(RefDesc {
            line,
            id: text_of(alloc, FieldName::Id, fields)?,
            component: text_of(alloc, FieldName::Component, fields)?,
            position: position_of(fields),
            rotation: rotation_of(fields),
            properties: all_of(alloc, FieldName::Properties, fields)?,
            unknown: unknown(alloc, Message::Ref, fields)?,
        })
    }

    fn put(&self, alloc: Global, out: &mut Tree) -> Result<(), AllocError> {
        put_text(alloc, out, FieldName::Id, self.id.as_str())?;
        put_text(alloc, out, FieldName::Component, self.component.as_str())?;
        put_position(alloc, out, self.position)?;
        put_rotation(alloc, out, self.rotation)?;
        put_all(
            alloc,
            out,
            FieldName::Properties,
            self.properties.as_slice(),
        )?;
        put_copies(alloc, out, self.unknown.as_slice())
    }
}

impl Part for EmbedDesc {
    ghost reads = { embed_of };

    ghost prints = { embed_tree };

    fn read(alloc: Global, line: u32, fields: &[Field]) -> Result<EmbedDesc, AllocError> {
        Ok(EmbedDesc {
            line,
            id: text_of(alloc, FieldName::Id, fields)?,
            kind: text_of(alloc, FieldName::Type, fields)?,
            body: text_of(alloc, FieldName::Data, fields)?,
            position: position_of(fields),
            rotation: rotation_of(fields),
            unknown: unknown(alloc, Message::Embed, fields)?,
        })
    }

    fn put(&self, alloc: Global, out: &mut Tree) -> Result<(), AllocError> {
        put_text(alloc, out, FieldName::Id, self.id.as_str())?;
        put_text(alloc, out, FieldName::Type, self.kind.as_str())?;
        put_text(alloc, out, FieldName::Data, self.body.as_str())?;
        put_position(alloc, out, self.position)?;
        put_rotation(alloc, out, self.rotation)?;
        put_copies(alloc, out, self.unknown.as_slice())
    }
}

impl Part for InstDesc {
    ghost reads = { inst_of };

    ghost prints = { inst_tree };

    fn read(alloc: Global, line: u32, fields: &[Field]) -> Result<InstDesc, AllocError> {
        Ok(InstDesc {
            line,
            id: text_of(alloc, FieldName::Id, fields)?,
            prototype: text_of(alloc, FieldName::Prototype, fields)?,
            children: children_of(alloc, fields)?,
            position: position_of(fields),
            rotation: rotation_of(fields),
            scale3: scale3_of(fields),
            component_properties: all_of(alloc, FieldName::ComponentProperties, fields)?,
            unknown: unknown(alloc, Message::Inst, fields)?,
        })
    }

    fn put(&self, alloc: Global, out: &mut Tree) -> Result<(), AllocError> {
        put_text(alloc, out, FieldName::Id, self.id.as_str())?;
        put_text(alloc, out, FieldName::Prototype, self.prototype.as_str())?;
        put_children(alloc, out, self.children.as_slice())?;
        put_position(alloc, out, self.position)?;
        put_rotation(alloc, out, self.rotation)?;
        put_scale3(alloc, out, self.scale3)?;
        put_all(
            alloc,
            out,
            FieldName::ComponentProperties,
            self.component_properties.as_slice(),
        )?;
        put_copies(alloc, out, self.unknown.as_slice())
    }
}

impl Part for EmbedInstDesc {
    ghost reads = { embed_inst_of };

    ghost prints = { embed_inst_tree };

    fn read(alloc: Global, line: u32, fields: &[Field]) -> Result<EmbedInstDesc, AllocError> {
        Ok(EmbedInstDesc {
            line,
            id: text_of(alloc, FieldName::Id, fields)?,
            children: children_of(alloc, fields)?,
            body: text_of(alloc, FieldName::Data, fields)?,
            position: position_of(fields),
            rotation: rotation_of(fields),
            scale3: scale3_of(fields),
            unknown: unknown(alloc, Message::EmbedInst, fields)?,
        })
    }

    fn put(&self, alloc: Global, out: &mut Tree) -> Result<(), AllocError> {
        put_text(alloc, out, FieldName::Id, self.id.as_str())?;
        put_children(alloc, out, self.children.as_slice())?;
        put_text(alloc, out, FieldName::Data, self.body.as_str())?;
        put_position(alloc, out, self.position)?;
        put_rotation(alloc, out, self.rotation)?;
        put_scale3(alloc, out, self.scale3)?;
        put_copies(alloc, out, self.unknown.as_slice())
    }
}

impl Part for CollInstDesc {
    ghost reads = { coll_inst_of };

    ghost prints = { coll_inst_tree };

    fn read(alloc: Global, line: u32, fields: &[Field]) -> Result<CollInstDesc, AllocError> {
        Ok(CollInstDesc {
            line,
            id: text_of(alloc, FieldName::Id, fields)?,
            collection: text_of(alloc, FieldName::Collection, fields)?,
            position: position_of(fields),
            rotation: rotation_of(fields),
            scale3: scale3_of(fields),
            instance_properties: all_of(alloc, FieldName::InstanceProperties, fields)?,
            unknown: unknown(alloc, Message::CollInst, fields)?,
        })
    }

    fn put(&self, alloc: Global, out: &mut Tree) -> Result<(), AllocError> {
        put_text(alloc, out, FieldName::Id, self.id.as_str())?;
        put_text(alloc, out, FieldName::Collection, self.collection.as_str())?;
        put_position(alloc, out, self.position)?;
        put_rotation(alloc, out, self.rotation)?;
        put_scale3(alloc, out, self.scale3)?;
        put_all(
            alloc,
            out,
            FieldName::InstanceProperties,
            self.instance_properties.as_slice(),
        )?;
        put_copies(alloc, out, self.unknown.as_slice())
    }
}

fn children_of(alloc: Global, fields: &[Field]) -> Result<Items<ChildDesc>, AllocError>
    ensures { IfOk result (λ all. all ≡ children_of fields.now) }
{
    let mut all = Items::new(alloc);
    for field in fields {
        if is_named(FieldName::Children, field) {
            all.push(child_of(alloc, field)?)?;
        }
    }
    Ok(all)
}

fn child_of(alloc: Global, field: &Field) -> Result<ChildDesc, AllocError>
    ensures { IfOk result (λ child. child ≡ child_of field.now) }
{
    Ok(ChildDesc {
        line: field.line,
        id: Str::of(String::from_str(alloc, text_in(&field.value))?),
    })
}
