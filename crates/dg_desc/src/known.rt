//! The known fields of each message: one table for each, in canonical order.
ghost use Rattle.std.specs.Prelude.{◌≡◌};
ghost use Rattle.dg_desc.specs.Known.{label_of, rows_of, row_in, is_closed, place_in};

/// A message of the project's files. Quaternions and vectors have no fields but the known ones.
#[derive(Clone, Copy, PartialEq, Eq, Debug)]
pub enum Message {
    Go,
    Ref,
    Embed,
    Coll,
    Inst,
    EmbedInst,
    CollInst,
    Prop,
    CompProps,
    InstProps,
    Vector,
    Quaternion,
}

/// The name of a known field.
#[derive(Clone, Copy, PartialEq, Eq, Debug)]
pub enum FieldName {
    Components,
    EmbeddedComponents,
    Name,
    ScaleAlongZ,
    Instances,
    EmbeddedInstances,
    CollectionInstances,
    Id,
    Component,
    Prototype,
    Collection,
    Children,
    Type,
    Value,
    Data,
    Position,
    Rotation,
    Scale,
    Scale3,
    Properties,
    ComponentProperties,
    InstanceProperties,
    X,
    Y,
    Z,
    W,
}

/// What a field's value has to be: a text, a text of small letters, digits and `_`, the bare word of a property's
/// type, a decimal, `0`, `1`, `true` or `false`, a message; anything, where the field isn't known; or nothing, where
/// the message has no others.
#[derive(Clone, Copy, PartialEq, Eq, Debug)]
pub enum Form {
    Text,
    Kind,
    PropertyType,
    Decimal,
    Switch,
    Inner(Message),
    Any,
    Never,
}

/// A known field of a message.
#[derive(Clone, Copy, PartialEq, Eq, Debug)]
pub struct Row {
    pub name: FieldName,
    pub form: Form,
    pub required: bool,
}

/// A game object.
#[rattlefmt::skip]
pub static GO: [Row; 2] = [
    Row { name: FieldName::Components, form: Form::Inner(Message::Ref), required: false },
    Row { name: FieldName::EmbeddedComponents, form: Form::Inner(Message::Embed), required: false },
];

/// A component by its path.
#[rattlefmt::skip]
pub static REF: [Row; 5] = [
    Row { name: FieldName::Id, form: Form::Text, required: true },
    Row { name: FieldName::Component, form: Form::Text, required: true },
    Row { name: FieldName::Position, form: Form::Inner(Message::Vector), required: false },
    Row { name: FieldName::Rotation, form: Form::Inner(Message::Quaternion), required: false },
    Row { name: FieldName::Properties, form: Form::Inner(Message::Prop), required: false },
];

/// A component that stands in its file.
#[rattlefmt::skip]
pub static EMBED: [Row; 5] = [
    Row { name: FieldName::Id, form: Form::Text, required: true },
    Row { name: FieldName::Type, form: Form::Kind, required: true },
    Row { name: FieldName::Data, form: Form::Text, required: true },
    Row { name: FieldName::Position, form: Form::Inner(Message::Vector), required: false },
    Row { name: FieldName::Rotation, form: Form::Inner(Message::Quaternion), required: false },
];

/// A collection.
#[rattlefmt::skip]
pub static COLL: [Row; 5] = [
    Row { name: FieldName::Name, form: Form::Text, required: true },
    Row { name: FieldName::ScaleAlongZ, form: Form::Switch, required: false },
    Row { name: FieldName::Instances, form: Form::Inner(Message::Inst), required: false },
    Row { name: FieldName::EmbeddedInstances, form: Form::Inner(Message::EmbedInst), required: false },
    Row { name: FieldName::CollectionInstances, form: Form::Inner(Message::CollInst), required: false },
];

/// An instance of a game object by its path.
#[rattlefmt::skip]
pub static INST: [Row; 8] = [
    Row { name: FieldName::Id, form: Form::Text, required: true },
    Row { name: FieldName::Prototype, form: Form::Text, required: true },
    Row { name: FieldName::Children, form: Form::Text, required: false },
    Row { name: FieldName::Position, form: Form::Inner(Message::Vector), required: false },
    Row { name: FieldName::Rotation, form: Form::Inner(Message::Quaternion), required: false },
    Row { name: FieldName::Scale, form: Form::Decimal, required: false },
    Row { name: FieldName::Scale3, form: Form::Inner(Message::Vector), required: false },
    Row { name: FieldName::ComponentProperties, form: Form::Inner(Message::CompProps), required: false },
];

/// An instance of a game object that stands in the collection's file.
#[rattlefmt::skip]
pub static EMBED_INST: [Row; 7] = [
    Row { name: FieldName::Id, form: Form::Text, required: true },
    Row { name: FieldName::Children, form: Form::Text, required: false },
    Row { name: FieldName::Data, form: Form::Text, required: true },
    Row { name: FieldName::Position, form: Form::Inner(Message::Vector), required: false },
    Row { name: FieldName::Rotation, form: Form::Inner(Message::Quaternion), required: false },
    Row { name: FieldName::Scale, form: Form::Decimal, required: false },
    Row { name: FieldName::Scale3, form: Form::Inner(Message::Vector), required: false },
];

/// An instance of a collection by its path.
#[rattlefmt::skip]
pub static COLL_INST: [Row; 7] = [
    Row { name: FieldName::Id, form: Form::Text, required: true },
    Row { name: FieldName::Collection, form: Form::Text, required: true },
    Row { name: FieldName::Position, form: Form::Inner(Message::Vector), required: false },
    Row { name: FieldName::Rotation, form: Form::Inner(Message::Quaternion), required: false },
    Row { name: FieldName::Scale, form: Form::Decimal, required: false },
    Row { name: FieldName::Scale3, form: Form::Inner(Message::Vector), required: false },
    Row { name: FieldName::InstanceProperties, form: Form::Inner(Message::InstProps), required: false },
];

/// A property.
#[rattlefmt::skip]
pub static PROP: [Row; 3] = [
    Row { name: FieldName::Id, form: Form::Text, required: true },
    Row { name: FieldName::Value, form: Form::Text, required: true },
    Row { name: FieldName::Type, form: Form::PropertyType, required: true },
];

/// The properties of a component.
#[rattlefmt::skip]
pub static COMP_PROPS: [Row; 2] = [
    Row { name: FieldName::Id, form: Form::Text, required: true },
    Row { name: FieldName::Properties, form: Form::Inner(Message::Prop), required: false },
];

/// The properties of the components of an instance.
#[rattlefmt::skip]
pub static INST_PROPS: [Row; 2] = [
    Row { name: FieldName::Id, form: Form::Text, required: true },
    Row { name: FieldName::Properties, form: Form::Inner(Message::CompProps), required: false },
];

/// A position, or the scales along three axes.
#[rattlefmt::skip]
pub static VECTOR: [Row; 3] = [
    Row { name: FieldName::X, form: Form::Decimal, required: false },
    Row { name: FieldName::Y, form: Form::Decimal, required: false },
    Row { name: FieldName::Z, form: Form::Decimal, required: false },
];

/// A rotation.
#[rattlefmt::skip]
pub static QUATERNION: [Row; 4] = [
    Row { name: FieldName::X, form: Form::Decimal, required: false },
    Row { name: FieldName::Y, form: Form::Decimal, required: false },
    Row { name: FieldName::Z, form: Form::Decimal, required: false },
    Row { name: FieldName::W, form: Form::Decimal, required: false },
];

/// The known fields of a message.
pub(crate) fn rows_of(message: Message) -> &'static [Row]
    ensures { result.now ≡ rows_of message }
{
    match message {
        Message::Go => &GO,
        Message::Ref => &REF,
        Message::Embed => &EMBED,
        Message::Coll => &COLL,
        Message::Inst => &INST,
        Message::EmbedInst => &EMBED_INST,
        Message::CollInst => &COLL_INST,
        Message::Prop => &PROP,
        Message::CompProps => &COMP_PROPS,
        Message::InstProps => &INST_PROPS,
        Message::Vector => &VECTOR,
        Message::Quaternion => &QUATERNION,
    }
}

/// How a field's name is written.
pub(crate) fn label_of(name: FieldName) -> &'static str
    ensures { result.now ≡ label_of name }
{
    match name {
        FieldName::Components => "components",
        FieldName::EmbeddedComponents => "embedded_components",
        FieldName::Name => "name",
        FieldName::ScaleAlongZ => "scale_along_z",
        FieldName::Instances => "instances",
        FieldName::EmbeddedInstances => "embedded_instances",
        FieldName::CollectionInstances => "collection_instances",
        FieldName::Id => "id",
        FieldName::Component => "component",
        FieldName::Prototype => "prototype",
        FieldName::Collection => "collection",
        FieldName::Children => "children",
        FieldName::Type => "type",
        FieldName::Value => "value",
        FieldName::Data => "data",
        FieldName::Position => "position",
        FieldName::Rotation => "rotation",
        FieldName::Scale => "scale",
        FieldName::Scale3 => "scale3",
        FieldName::Properties => "properties",
        FieldName::ComponentProperties => "component_properties",
        FieldName::InstanceProperties => "instance_properties",
        FieldName::X => "x",
        FieldName::Y => "y",
        FieldName::Z => "z",
        FieldName::W => "w",
    }
}

/// The known field that has this label.
pub(crate) fn row_in(rows: &[Row], label: &str) -> Option<Row>
    ensures { result ≡ row_in rows.now label.now }
{
    for row in rows {
        if label_of(row.name) == label {
            return Some(*row);
        }
    }
    None
}

/// What is known of a field of a message: its name, where it is a known one, and what its value has to be.
#[derive(Clone, Copy, PartialEq, Eq, Debug)]
pub struct Place {
    pub name: Option<FieldName>,
    pub form: Form,
}

// Whether a message has no fields but the known ones.
fn is_closed(message: Message) -> bool
    ensures { result ≡ is_closed message }
{
    match message {
        Message::Vector | Message::Quaternion => true,
        _ => false,
    }
}

pub(crate) fn place_in(message: Message, label: &str) -> Place
    ensures { result ≡ place_in message label.now }
{
    match row_in(rows_of(message), label) {
        Some(row) => Place {
            name: Some(row.name),
            form: row.form,
        },
        None => Place {
            name: None,
            form: if is_closed(message) {
                Form::Never
            } else {
                Form::Any
            },
        },
    }
}
