//! Why a text or a result is refused.
use thiserror::Error;

/// Why a text is not read.
#[derive(Debug, Clone, Copy, PartialEq, Eq, Error)]
pub enum DecimalRefusal {
    /// The text is not of the form of a decimal number.
    #[error("not a decimal number")]
    NotNumber,
    /// The rounded value is outside the signed 64-bit numbers.
    #[error("a decimal number out of range")]
    Range,
}

/// The exact result, rounded, is outside the signed 64-bit numbers.
#[derive(Debug, Clone, Copy, PartialEq, Eq, Error)]
#[error("a decimal result out of range")]
pub struct Range;
