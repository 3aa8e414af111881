//! A desk as plain lists.
use crate::editing::Go;
use crate::items::{Item, item_at, item_of, with_item, without};
use dg_base::Endpoint;
use dg_cache::{EvictEnd, Evicted};
use dg_desk::{EventOf, Followed, PublishEnd, Published, What};
use dg_line::{LineName, Link, Shown, Ticket};
use dg_offer::Offer;
use std::alloc::{AllocError, Global};

/// The listed revisions, the last of which it is at, the entries, most recent first, how many records each pass has,
/// and how many of all are publications.
#[derive(Drop)]
pub(crate) struct Machine<T> {
    alloc: Global,
    capacity: usize,
    listed: Vec<T>,
    pub(crate) items: Vec<Item>,
    counts: Vec<usize>,
    pub(crate) publications: usize,
}

impl<J: LineName> Machine<Ticket<Shown<Go, J>>> {
    pub(crate) fn open(
        alloc: Global,
        first: Ticket<Shown<Go, J>>,
        capacity: usize,
        passes: usize,
    ) -> Result<Machine<Ticket<Shown<Go, J>>>, AllocError> {
        let mut listed = Vec::new(alloc);
        listed.push(first)?;
        let mut counts = Vec::new(alloc);
        for _ in 0..passes {
            counts.push(0)?;
        }
        Ok(Machine {
            alloc,
            capacity,
            listed,
            items: Vec::new(alloc),
            counts,
            publications: 0,
        })
    }

    fn follow(&mut self, link: &Link<Shown<Go, J>>) -> Result<Followed, AllocError> {
        let had = match self.listed.last() {
            Some(now) => now.index(),
            None => 0,
        };
        let wanted = link.from().index();
        if had == wanted {
            self.items = without(self.alloc, &self.items, link.dirty())?;
            self.listed.push(link.to().share()?)?;
            return Ok(Followed::Kept);
        }
        self.items.clear();
        self.listed.clear();
        self.listed.push(link.to().share()?)?;
        Ok(Followed::Restarted { had, wanted })
    }

    fn is_listed(&self, index: usize) -> bool {
        for ticket in self.listed.iter() {
            if ticket.index() == index {
                return true;
            }
        }
        false
    }

    /// The offer's items with the same counter now.
    fn kept_of(&self, offer: &Offer<Shown<Go, J>>) -> Result<Vec<Item>, AllocError> {
        let mut kept = Vec::new(self.alloc);
        let Some(now) = self.listed.last() else {
            return Ok(kept);
        };
        let now = now.revision().counters();
        let then = offer.ticket().revision().counters();
        for entry in offer.entries().iter() {
            if now.get(entry.at) == then.get(entry.at) {
                kept.push(item_of(entry))?;
            }
        }
        Ok(kept)
    }

    fn put_all(&mut self, hits: &[Endpoint], kept: &[Item]) -> Result<(), AllocError> {
        for hit in hits.iter() {
            if let Some(item) = item_at(&self.items, *hit) {
                self.items = with_item(self.alloc, &self.items, item, self.capacity)?;
            }
        }
        for item in kept.iter() {
            self.items = with_item(self.alloc, &self.items, *item, self.capacity)?;
        }
        Ok(())
    }

    fn publish(
        &mut self,
        place: usize,
        offer: &Offer<Shown<Go, J>>,
    ) -> Result<Published, AllocError> {
        let index = offer.ticket().index();
        if !self.is_listed(index) {
            return Ok(Published {
                place: Some(place),
                kept: 0,
                late: 0,
                done: 0,
                end: PublishEnd::Unknown { index },
            });
        }
        let kept = self.kept_of(offer)?;
        self.put_all(offer.hits(), &kept)?;
        Ok(Published {
            place: Some(place),
            kept: kept.len(),
            late: offer.entries().len().saturating_sub(kept.len()),
            done: kept.len(),
            end: PublishEnd::All,
        })
    }

    fn evict(&mut self, most: u32) -> Evicted {
        let mut gone: u32 = 0;
        for _ in 0..most {
            if self.items.pop().is_some() {
                gone = gone.saturating_add(1);
            }
        }
        Evicted {
            gone,
            end: EvictEnd::All,
        }
    }

    /// Whether a record has the number that is due.
    fn counts(&mut self, pass: u32, nth: usize) -> bool {
        match self.counts.get_mut(pass as usize) {
            Some(count) => {
                let due = *count;
                *count = due.saturating_add(1);
                due == nth
            }
            None => false,
        }
    }

    /// Does what a record says, and tells whether its answer and its numbers are right.
    pub(crate) fn agrees(
        &mut self,
        place: usize,
        event: &EventOf<Shown<Go, J>>,
    ) -> Result<bool, AllocError> {
        let due = self.counts(event.pass, event.nth);
        match &event.what {
            What::Follow(link, answer) => {
                let followed = self.follow(link)?;
                Ok(due && event.pass == 0 && followed == *answer)
            }
            What::Publish(offer, answer) => {
                self.publications = self.publications.saturating_add(1);
                let published = self.publish(place, offer)?;
                Ok(due && published == *answer)
            }
            What::Evict(most, answer) => Ok(due && self.evict(*most) == *answer),
            What::Settle(_) => Ok(false),
        }
    }
}
