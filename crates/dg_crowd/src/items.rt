//! The entries of a cache as a plain list, most recent first.
use dg_base::{Answer, Datum, Endpoint};
use dg_cache::Entry;
use std::alloc::{AllocError, Global};

/// An entry whose answer is a number.
#[derive(Clone, Copy, PartialEq)]
pub(crate) struct Item {
    pub(crate) at: Endpoint,
    pub(crate) number: i64,
}

pub(crate) fn item_of(entry: &Entry) -> Item {
    let number = match entry.value.answer() {
        Answer::Good(Datum::Dec(number)) => *number,
        _ => -1,
    };
    Item {
        at: entry.at,
        number,
    }
}

pub(crate) fn item_at(items: &[Item], at: Endpoint) -> Option<Item> {
    for item in items.iter() {
        if item.at == at {
            return Some(*item);
        }
    }
    None
}

/// The items of none of these endpoints.
pub(crate) fn without(
    alloc: Global,
    items: &[Item],
    dropped: &[Endpoint],
) -> Result<Vec<Item>, AllocError> {
    let mut all = Vec::new(alloc);
    for item in items.iter() {
        if !dropped.contains(&item.at) {
            all.push(*item)?;
        }
    }
    Ok(all)
}

/// An item in front, and then those of other endpoints, as many as there is room for.
pub(crate) fn with_item(
    alloc: Global,
    items: &[Item],
    item: Item,
    capacity: usize,
) -> Result<Vec<Item>, AllocError> {
    let mut all = Vec::new(alloc);
    all.push(item)?;
    let mut others = without(alloc, items, &[item.at])?;
    all.append(&mut others)?;
    all.truncate(capacity);
    Ok(all)
}
