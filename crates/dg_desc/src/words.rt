//! Words that stand for values.
ghost use Rattle.std.specs.Prelude.{◌≡◌};
ghost use Rattle.std.specs.List.{list_all};
ghost use Rattle.dg_desc.specs.Words.{is_decimal, type_named, type_word, switch_named, is_kind_byte, is_kind};

use dg_base::PType;

pub(crate) fn is_decimal(word: &str) -> bool
    ensures { result ≡ is_decimal word.now }
{
    dg_decimal::read(word).is_ok()
}

/// The type of a property, by its word.
pub(crate) fn type_named(word: &str) -> Option<PType>
    ensures { result ≡ type_named word.now }
{
    match word {
        "PROPERTY_TYPE_NUMBER" => Some(PType::Number),
        "PROPERTY_TYPE_HASH" => Some(PType::Hash),
        "PROPERTY_TYPE_URL" => Some(PType::Url),
        "PROPERTY_TYPE_VECTOR3" => Some(PType::Vector3),
        "PROPERTY_TYPE_VECTOR4" => Some(PType::Vector4),
        "PROPERTY_TYPE_QUAT" => Some(PType::Quat),
        "PROPERTY_TYPE_BOOLEAN" => Some(PType::Boolean),
        _ => None,
    }
}

pub(crate) fn type_word(ptype: PType) -> &'static str
    ensures { result.now ≡ type_word ptype }
{
    match ptype {
        PType::Number => "PROPERTY_TYPE_NUMBER",
        PType::Hash => "PROPERTY_TYPE_HASH",
        PType::Url => "PROPERTY_TYPE_URL",
        PType::Vector3 => "PROPERTY_TYPE_VECTOR3",
        PType::Vector4 => "PROPERTY_TYPE_VECTOR4",
        PType::Quat => "PROPERTY_TYPE_QUAT",
        PType::Boolean => "PROPERTY_TYPE_BOOLEAN",
    }
}

pub(crate) fn switch_named(word: &str) -> Option<bool>
    ensures { result ≡ switch_named word.now }
{
    match word {
        "0" => Some(false),
        "1" => Some(true),
        "false" => Some(false),
        "true" => Some(true),
        _ => None,
    }
}

fn is_kind_byte(byte: u8) -> bool
    ensures { result ≡ is_kind_byte byte }
{
    byte.is_ascii_lowercase() || byte.is_ascii_digit() || byte == b'_'
}

/// Whether a text is the type of an embedded component: one or more small letters, digits and `_`.
pub(crate) fn is_kind(text: &str) -> bool
    ensures { result ≡ is_kind text.now }
{
    !text.is_empty() && are_kind_bytes(text.as_bytes())
}

fn are_kind_bytes(bytes: &[u8]) -> bool
    ensures { result ≡ list_all is_kind_byte bytes.now }
{
    bytes.iter().all(|byte| is_kind_byte(*byte))
}
