//! The live pins of a script.
ghost use Rattle.std.specs.Prelude.{◌≡◌, bytes_eq, filter, not};
ghost use Rattle.dg_play.specs.Seen.{number_named};

use dg_base::Str;

/// A live pin: its name, and its number in the session.
#[derive(Drop)]
pub struct Pin {
    pub name: Str,
    pub number: u32,
}

/// The number of the pin with a name. Pins are looked up one after the other; there are at most 1,024.
pub(crate) fn number_named(pins: &[Pin], name: &str) -> Option<u32>
    ensures { result ≡ number_named pins.now name.now }
{
    for pin in pins {
        if pin.name.as_str() == name {
            return Some(pin.number);
        }
    }
    None
}

/// Takes away the pin with a name.
pub(crate) fn remove_pin(pins: &mut Vec<Pin>, name: &str)
    ensures { pins.new.items ≡ filter (λ p. not (bytes_eq p.name name.now)) pins.old.items }
{
    pins.retain(
        |pin: &Pin| -> bool
            ensures { result ≡ not (bytes_eq pin.now.name name.entry.now) }
        { pin.name.as_str() != name },
    );
}
