//! What the parts make for each other in a window.
ghost use Rattle.std.specs.Prelude.{◌≡◌, ◌⊎◌, ◌↔◌, ℕ, ◌<◌, ◌++◌, ◌∷◌, [], length, slice_index_or, slice_set, IfOk, OnOk};
ghost use Rattle.std.specs.List.{All, Contains};
ghost use Rattle.des_event.specs.declared.event.Event.{Event as AnEvent};
ghost use Rattle.des_event.specs.KeyOrder.{InKeyOrder};
ghost use Rattle.des_queue.specs.EventKey.{event_key};
ghost use Rattle.des_team.specs.Exchanges.{HaveDelivered, given};
ghost use Rattle.des_team.specs.Mail.{AreEmpty, AreNamed, all_of, lists_of, mail_in};
ghost use Rattle.des_team.specs.Owned.{AreApart};

use crate::part::Parcel;
use des_event::{Brief, Event, Memory};
use des_machine::Machine;
use des_queue::Pending;
use std::alloc::Global;
use std::marker::Model;
use std::mem;

/// With more parts than this, lists of mail give their memory back: each part has a list for each
/// other one.
const MOST_KEPT: usize = 64;

/// What the others made for a part in the last window. Contracts see the events.
#[derive(Drop)]
pub struct Inbox<B> {
    /// The lists that came.
    came: Vec<Vec<Event<B>>>,
    /// Empty lists. One of them is given for each list that comes, so that its memory is used again.
    empty: Vec<Vec<Event<B>>>,
}

impl<B> Model for Inbox<B> {
    ghost use Rattle.std.specs.Prelude.{List};
    ghost use Rattle.des_event.specs.declared.event.Event.{Event};
    ghost use Rattle.des_team.specs.Mail.{AreEmpty, mail_in};

    ghost Value = { List (Event B) };

    ghost view = { λ i. mail_in i.came.items };

    ghost invariant = { λ i. AreEmpty i.empty.items };
}

/// What a part makes for the others in a window. Contracts see the list of each part.
#[derive(Drop)]
pub struct Outbox<B> {
    lists: Vec<Vec<Event<B>>>,
    /// The parts whose lists have events: the others are not looked at when the window ends.
    receivers: Vec<u32>,
}

impl<B> Model for Outbox<B> {
    ghost use Rattle.std.specs.Prelude.{List};
    ghost use Rattle.des_event.specs.declared.event.Event.{Event};
    ghost use Rattle.des_team.specs.Mail.{AreNamed, lists_of};

    ghost Value = { List (List (Event B)) };

    ghost view = { λ o. lists_of o.lists.items };

    ghost invariant = { λ o. AreNamed o.lists.items o.receivers.items };
}

/// Moves the events of the lists that came among the pending ones. The lists keep their memory and
/// are put among the empty ones, if they are to be kept.
fn take_lists<B: Brief + Drop>(
    came: &mut Vec<Vec<Event<B>>>,
    empty: &mut Vec<Vec<Event<B>>>,
    pending: &mut Pending<B>,
    are_kept: bool,
) -> Result<(), Memory>
    requires apart { AreApart (pending.old ++ mail_in came.old.items) }
    requires empty { AreEmpty empty.old.items }
    ensures same { OnOk result ((x : AnEvent B) → Contains pending.new x ↔ Contains (pending.old ++ mail_in came.old.items) x) }
    ensures none_left { OnOk result (mail_in came.new.items ≡ []) }
    ensures empty { AreEmpty empty.new.items }
{
    while let Some(list) = came.pop() {
        let mut list = list;
        pending.recall_order();
        pending.insert_from(&mut list)?;
        if are_kept {
            empty.push(list)?;
        }
    }
    Ok(())
}

impl<B: Drop> Inbox<B> {
    pub fn new(alloc: Global) -> Inbox<B>
        ensures { result ≡ [] }
    {
        Inbox {
            came: Vec::new(alloc),
            empty: Vec::new(alloc),
        }
    }

    /// Takes the events of a list.
    fn put(&mut self, list: &mut Vec<Event<B>>) -> Result<(), Memory>
        ensures came { OnOk result (self.new ≡ self.old ++ list.old.items) }
        ensures none_left { OnOk result (list.new.items ≡ []) }
    {
        let empty = match self.empty.pop() {
            Some(empty) => empty,
            None => Vec::new(*list.allocator()),
        };
        self.came.push(mem::replace(list, empty))?;
        Ok(())
    }

    /// Moves the events among the pending ones of a part of so many.
    pub fn empty_into(&mut self, pending: &mut Pending<B>, parts: usize) -> Result<(), Memory>
    where
        B: Brief,
        requires { AreApart (pending.old ++ self.old) }
        ensures same { OnOk result ((x : AnEvent B) → Contains pending.new x ↔ Contains (pending.old ++ self.old) x) }
        ensures none_left { OnOk result (self.new ≡ []) }
        ensures ordered { OnOk result (InKeyOrder event_key pending.new) }
    {
        take_lists(&mut self.came, &mut self.empty, pending, parts <= MOST_KEPT)?;
        pending.recall_order();
        Ok(())
    }
}

/// Notes the part of a list, if nothing is in the list yet.
fn note<B>(receivers: &mut Vec<u32>, part: u32, list: &Vec<Event<B>>) -> Result<(), Memory>
    requires { (list.now.items ≡ []) ⊎ Contains receivers.old.items part }
    ensures noted { OnOk result (Contains receivers.new.items part) }
    ensures kept { (p : ℕ) → Contains receivers.old.items p → Contains receivers.new.items p }
    ensures below { (n : ℕ) → part < n → All (λ p. p < n) receivers.old.items → All (λ p. p < n) receivers.new.items }
{
    if list.is_empty() {
        receivers.push(part)?;
    }
    Ok(())
}

/// Adds an event to the list of a part.
fn add_event<B: Drop>(
    lists: &mut Vec<Vec<Event<B>>>,
    receivers: &mut Vec<u32>,
    part: u32,
    event: Event<B>,
) -> Result<(), Memory>
    requires part { part < length lists.old.items }
    requires named { AreNamed lists.old.items receivers.old.items }
    ensures named { AreNamed lists.new.items receivers.new.items }
    ensures added { OnOk result (lists_of lists.new.items ≡ slice_set (lists_of lists.old.items) part (slice_index_or (lists_of lists.old.items) part [] ++ event ∷ [])) }
{
    let list = &mut lists[part as usize];
    if let Err(refused) = note(receivers, part, list) {
        // By a call, so that the proof has one case and not one for each kind of body.
        drop(event);
        return Err(refused);
    }
    list.push(event)?;
    Ok(())
}

/// Moves the events of a list into the inbox of a part. A part that is not here gets none.
fn give<M: Machine, S: Drop>(
    place: &mut Option<Parcel<M, S>>,
    list: &mut Vec<Event<M::Body>>,
) -> Result<(), Memory>
    ensures given { OnOk result (place.new ≡ given list.old.items place.old) }
    ensures none_left { OnOk result (list.new.items ≡ []) }
{
    match place {
        Some(parcel) => parcel.part.inbox.put(list),
        None => {
            list.clear();
            Ok(())
        }
    }
}

/// Moves the events of these parts' lists into their inboxes.
fn deliver_lists<M: Machine, S: Drop>(
    lists: &mut Vec<Vec<Event<M::Body>>>,
    receivers: &Vec<u32>,
    parcels: &mut Vec<Option<Parcel<M, S>>>,
) -> Result<(), Memory>
    requires named { AreNamed lists.old.items receivers.now.items }
    requires long { length parcels.old.items ≡ length lists.old.items }
    ensures named { AreNamed lists.new.items receivers.now.items }
    ensures long { length lists.new.items ≡ length lists.old.items }
    ensures none_left { OnOk result (AreEmpty lists.new.items) }
    ensures delivered { OnOk result (HaveDelivered (lists_of lists.old.items) parcels.old.items parcels.new.items) }
{
    for part in receivers {
        let part = *part as usize;
        give(&mut parcels[part], &mut lists[part])?;
    }
    Ok(())
}

impl<B: Drop> Outbox<B> {
    /// An empty list for each part.
    pub fn new(alloc: Global, parts: u32) -> Result<Outbox<B>, Memory>
        ensures long { IfOk result (λ outbox. length outbox ≡ parts) }
        ensures none { IfOk result (λ outbox. all_of outbox ≡ []) }
    {
        let mut lists = Vec::new(alloc);
        for _part in 0..parts {
            lists.push(Vec::new(alloc))?;
        }
        Ok(Outbox {
            lists,
            receivers: Vec::new(alloc),
        })
    }

    /// The number of parts.
    pub fn len(&self) -> usize
        ensures { result ≡ length self.now }
    {
        self.lists.len()
    }

    /// Adds an event to the list of a part.
    pub fn push(&mut self, part: u32, event: Event<B>) -> Result<(), Memory>
        requires { part < length self.old }
        ensures { OnOk result (self.new ≡ slice_set self.old part (slice_index_or self.old part [] ++ event ∷ [])) }
    {
        add_event(&mut self.lists, &mut self.receivers, part, event)
    }

    /// Moves the events into the inboxes of their parts. Takes as long as there are parts that get
    /// something.
    pub fn deliver<M: Machine<Body = B>, S: Drop>(
        &mut self,
        parcels: &mut Vec<Option<Parcel<M, S>>>,
    ) -> Result<(), Memory>
        requires { length parcels.old.items ≡ length self.old }
        ensures long { OnOk result (length self.new ≡ length self.old) }
        ensures none_left { OnOk result (all_of self.new ≡ []) }
        ensures delivered { OnOk result (HaveDelivered self.old parcels.old.items parcels.new.items) }
    {
        deliver_lists(&mut self.lists, &self.receivers, parcels)?;
        self.receivers.clear();
        Ok(())
    }

    /// The lists, with that of each part at its number. No run calls it: a test reads them.
    pub fn into_lists(self) -> Vec<Vec<Event<B>>>
        ensures { lists_of result.items ≡ self }
    {
        let Outbox {
            lists,
            receivers: _,
        } = self;
        lists
    }
}
