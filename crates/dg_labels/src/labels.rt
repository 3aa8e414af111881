//! The labels of the schema, each with its number and its name. Those from `PROPS` on are labels of
//! record fields alone.
ghost use Rattle.std.specs.Prelude.{◌≡◌, ℕ, List, Some, map};
ghost use Rattle.std.specs.Option.{option_map};
ghost use Rattle.dg_base.specs.declared.ids.Label.{Label};
ghost use Rattle.dg_base.specs.Same.{same_label};
ghost use Rattle.dg_labels.specs.Names.{name_in};
ghost use Rattle.dg_labels.specs.Labels.{name_of_label, label_named};

use crate::names::named_in;
use dg_base::Label;

pub const VALUE: Label = Label(1);

pub const TERMS: Label = Label(2);

pub const EXTRA: Label = Label(3);

pub const TOTAL: Label = Label(4);

pub const TEXT: Label = Label(5);

pub const GLUE: Label = Label(6);

pub const PARTS: Label = Label(7);

pub const JOINED: Label = Label(8);

pub const PATH: Label = Label(9);

pub const RESOURCE: Label = Label(10);

pub const ID: Label = Label(11);

pub const TYPE: Label = Label(12);

pub const DATA: Label = Label(13);

pub const POSITION: Label = Label(14);

pub const ROTATION: Label = Label(15);

pub const COMPONENT: Label = Label(16);

pub const COMPONENTS: Label = Label(17);

pub const OBJECT: Label = Label(18);

pub const BUILD: Label = Label(19);

pub const SCALE3: Label = Label(20);

pub const SOURCE: Label = Label(21);

pub const CHILDREN: Label = Label(22);

pub const INSTANCE: Label = Label(23);

pub const NAME: Label = Label(24);

pub const SCALE_ALONG_Z: Label = Label(25);

pub const INSTANCES: Label = Label(26);

pub const SUBS: Label = Label(27);

pub const FLAT: Label = Label(28);

pub const PROPS: Label = Label(29);

pub const ENTRIES: Label = Label(30);

pub const CHILD: Label = Label(31);

/// The names of the labels.
pub static LABELS: [(Label, &'static str); 31] = [
    (VALUE, "value"),
    (TERMS, "terms"),
    (EXTRA, "extra"),
    (TOTAL, "total"),
    (TEXT, "text"),
    (GLUE, "glue"),
    (PARTS, "parts"),
    (JOINED, "joined"),
    (PATH, "path"),
    (RESOURCE, "resource"),
    (ID, "id"),
    (TYPE, "type"),
    (DATA, "data"),
    (POSITION, "position"),
    (ROTATION, "rotation"),
    (COMPONENT, "component"),
    (COMPONENTS, "components"),
    (OBJECT, "object"),
    (BUILD, "build"),
    (SCALE3, "scale3"),
    (SOURCE, "source"),
    (CHILDREN, "children"),
    (INSTANCE, "instance"),
    (NAME, "name"),
    (SCALE_ALONG_Z, "scale_along_z"),
    (INSTANCES, "instances"),
    (SUBS, "subs"),
    (FLAT, "flat"),
    (PROPS, "props"),
    (ENTRIES, "entries"),
    (CHILD, "child"),
];

/// The name of a label, where the schema has one.
pub fn label_name(label: Label) -> Option<&'static str>
    ensures { option_map (λ t. t.now) result ≡ name_of_label label }
{
    name_in(&LABELS, label)
}

fn name_in(rows: &[(Label, &'static str)], label: Label) -> Option<&'static str>
    ensures { option_map (λ t. t.now) result ≡ name_in same_label (map (λ r. (r.0, r.1.now)) rows.now) label }
{
    for row in rows {
        if label.0 == row.0.0 {
            return Some(row.1);
        }
    }
    None
}

/// The label of a name, where the schema has it.
pub fn label_named(name: &str) -> Option<Label>
    ensures { result ≡ label_named name.now }
{
    named_in(&LABELS, name)
}

/// Names and labels belong together: a name's label has that name, and a label's name has that label.
pub fn labels_agree()
    ensures name { (text : List ℕ) (label : Label) → label_named text ≡ Some label → name_of_label label ≡ Some text }
    ensures label { (text : List ℕ) (label : Label) → name_of_label label ≡ Some text → label_named text ≡ Some label }
{}
