//! How many messages there were of each kind.
ghost use Rattle.std.specs.Prelude.{◌≡◌, [], OnOk, false, true};
ghost use Rattle.chord_judge.specs.Kept.{Adds, is_kept_word, is_word};

use crate::words::push_line;
use chord_event::Memory;

/// The kinds of messages, as lines name them, those that most lines have first.
const KINDS: [&str; 10] = [
    "step",
    "step-reply",
    "ping",
    "pong",
    "get-state",
    "state-reply",
    "get-list",
    "list-reply",
    "notify",
    "leave",
];

/// What becomes of a message: it is a request that is sent, another message that is sent, or it is dropped.
#[derive(Clone, Copy, Drop)]
pub(crate) enum Fate {
    Asked,
    Sent,
    Dropped,
}

/// The numbers of messages since a time, for each kind.
#[derive(Drop)]
pub(crate) struct Counts {
    asked: [u64; 10],
    sent: [u64; 10],
    dropped: [u64; 10],
    /// The messages of users' lookups.
    lookups: u64,
}

impl Counts {
    ghost use Rattle.std.specs.Prelude.{[], OnOk};
    ghost use Rattle.chord_judge.specs.Kept.{Adds};

    /// No messages.
    pub fn new() -> Counts {
        Counts {
            asked: [0; 10],
            sent: [0; 10],
            dropped: [0; 10],
            lookups: 0,
        }
    }

    /// Counts a message of the kind that a word names. No run has messages of other kinds, and they are not counted.
    pub fn add(&mut self, fate: Fate, kind: &[u8]) {
        let counts = match fate {
            Fate::Asked => &mut self.asked,
            Fate::Sent => &mut self.sent,
            Fate::Dropped => &mut self.dropped,
        };
        for (place, name) in KINDS.iter().enumerate() {
            if name.as_bytes() == kind {
                counts[place] = counts[place].saturating_add(1);
                return;
            }
        }
    }

    /// Counts so many more messages of users' lookups.
    pub fn add_of_lookups(&mut self, more: u64) {
        self.lookups = self.lookups.saturating_add(more);
    }

    /// Adds the lines of the counts since a time. All of them begin anew.
    pub fn push_to(&mut self, text: &mut Vec<u8>, since: u64) -> Result<(), Memory>
        ensures { OnOk result (Adds [] text.old.items text.new.items) }
    {
        push_counts(text, since, "ask", &mut self.asked)?;
        push_counts(text, since, "send", &mut self.sent)?;
        push_counts(text, since, "drop", &mut self.dropped)?;
        let lookups = self.lookups;
        self.lookups = 0;
        push_count(text, since, "lookups", "all", lookups)
    }
}

/// Adds the lines of these counts, which begin anew.
fn push_counts(
    text: &mut Vec<u8>,
    since: u64,
    word: &str,
    counts: &mut [u64; 10],
) -> Result<(), Memory>
    requires word { is_word word.now ≡ true }
    requires unkept { is_kept_word word.now ≡ false }
    ensures { OnOk result (Adds [] text.old.items text.new.items) }
{
    for (place, kind) in KINDS.iter().enumerate() {
        push_count(text, since, word, *kind, counts[place])?;
        counts[place] = 0;
    }
    Ok(())
}

/// Adds the line of a count. There is none for 0.
fn push_count(
    text: &mut Vec<u8>,
    since: u64,
    word: &str,
    kind: &str,
    count: u64,
) -> Result<(), Memory>
    requires word { is_word word.now ≡ true }
    requires unkept { is_kept_word word.now ≡ false }
    requires kind { is_word kind.now ≡ true }
    ensures { OnOk result (Adds [] text.old.items text.new.items) }
{
    if count == 0 {
        return Ok(());
    }
    let line = format!(in *text.allocator(); "{since} messages {word} {kind} {count}")?;
    push_line(text, line.as_bytes())
}
