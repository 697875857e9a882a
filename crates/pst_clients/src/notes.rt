//! Notes of what went wrong with clients, for people to read.

use crate::waits::ClientWaits;
use std::alloc::{AllocError, Global};
use std::sync::OnceLock;
use std::sync::atomic::{AtomicU64, Ordering};

/// How many notes of a kind are kept at most.
pub const MOST_NOTES: usize = 8;

/// How many characters of a line a note shows at most.
const MOST_SHOWN: usize = 100;

/// What went wrong with a line for a client.
#[derive(Clone, Copy, Debug, PartialEq, Eq, Drop)]
pub(crate) enum NoteKind {
    NotAsked,
    NotAnswered,
    Failed,
    Unknown,
    EndedUnknown,
    NoValue,
    Misfit,
    MoreLines,
    Stray,
}

/// The kinds with places of their own, in the order of their notes. Stray lines are kept with [`NoteKind::MoreLines`], and ends of
/// unknown outcome with [`NoteKind::Unknown`].
const KINDS: [NoteKind; 7] = [
    NoteKind::MoreLines,
    NoteKind::NotAsked,
    NoteKind::NotAnswered,
    NoteKind::Failed,
    NoteKind::Unknown,
    NoteKind::NoValue,
    NoteKind::Misfit,
];

impl NoteKind {
    /// What the note says about the line.
    fn phrase_about_line(self) -> &'static str {
        match self {
            NoteKind::NotAsked => "was not asked:",
            NoteKind::NotAnswered => "was not answered:",
            NoteKind::Failed | NoteKind::Unknown => "was answered with",
            NoteKind::EndedUnknown => "has an unknown outcome:",
            NoteKind::NoValue => "was answered with something that is not a value:",
            NoteKind::Misfit => "was answered with another type:",
            NoteKind::MoreLines => "was answered with more than one line:",
            NoteKind::Stray => "was followed by a line too many:",
        }
    }

    /// Whether a note says of a client that it prints too much. A second note on the same operation says nothing new,
    /// whatever the line.
    fn is_of_lines_too_many(self) -> bool {
        matches!(self, NoteKind::MoreLines | NoteKind::Stray)
    }
}

/// A note, as it is printed.
#[derive(Drop)]
struct Note {
    /// The operation, and the answer unless it is a line too many. Other notes of the same kind on the same topic say
    /// nothing new.
    topic: String,
    text: String,
}

/// The notes of one kind.
#[derive(Drop)]
struct KeptNotes {
    /// How many there were.
    count: AtomicU64,
    /// How many places are taken, and how many notes came when none was left.
    taken: AtomicU64,
    /// A place for each of the first on different topics.
    notes: Vec<OnceLock<Note>>,
}

/// What went wrong with a line, and the line.
#[derive(Clone, Copy, Drop)]
pub(crate) struct BadlyAnsweredLine<'a> {
    pub(crate) kind: NoteKind,
    pub(crate) line: &'a [u8],
    /// The line that the client answered, or the reason that none came.
    pub(crate) answer: &'a str,
    /// What to answer instead, or nothing.
    pub(crate) hint: &'static str,
}

/// The first notes of each kind, and how many others there were. Threads may note at once; they do not wait for
/// one another.
#[derive(Drop)]
pub struct Notes {
    alloc: Global,
    not_asked: KeptNotes,
    not_answered: KeptNotes,
    failed: KeptNotes,
    unknown: KeptNotes,
    no_value: KeptNotes,
    misfit: KeptNotes,
    lines_too_many: KeptNotes,
    waits: ClientWaits,
    /// How many resets failed since the last one that did not.
    failed_resets: AtomicU64,
    /// How many drives the bursts of the clients had.
    burst_drives: AtomicU64,
    /// How many calls had an unknown outcome or ended their client.
    calls_that_may_be_late: AtomicU64,
}

/// A client by the numbers of its worker and of its branch, both from 0.
#[derive(Clone, Copy, Debug, PartialEq, Eq, Drop)]
pub(crate) struct ClientId {
    pub(crate) worker: u64,
    pub(crate) branch: u32,
}

/// The beginning of a line without the white space around it, with control characters as `\x1b`.
pub(crate) fn printable_beginning_of_trimmed_line(
    alloc: Global,
    line: &str,
) -> Result<String, AllocError> {
    let mut shown = String::new(alloc);
    for (place, character) in line.trim().chars().enumerate() {
        if place == MOST_SHOWN {
            shown.push_str("..")?;
            return Ok(shown);
        }
        if character.is_control() {
            let code = u32::from(character);
            shown.push_str(format!(in alloc; "\\x{code:02x}")?.as_str())?;
        } else {
            shown.push(character)?;
        }
    }
    Ok(shown)
}

impl KeptNotes {
    fn new(alloc: Global) -> Result<KeptNotes, AllocError> {
        let mut notes = Vec::new(alloc);
        for _ in 0..MOST_NOTES {
            notes.push(OnceLock::new())?;
        }
        Ok(KeptNotes {
            count: AtomicU64::new(0),
            taken: AtomicU64::new(0),
            notes,
        })
    }

    /// Whether all places are taken.
    fn is_full(&self) -> bool {
        self.taken.load(Ordering::SeqCst) >= MOST_NOTES as u64
    }

    /// Whether a note on the topic is kept.
    fn has_topic(&self, topic: &str) -> bool {
        for place in &self.notes {
            if let Some(note) = place.get() {
                if note.topic.as_str() == topic {
                    return true;
                }
            }
        }
        false
    }

    /// Keeps a note, if a place is left and no other is on its topic.
    fn keep_note_if_new_topic_and_room(&self, note: Note) {
        if self.has_topic(note.topic.as_str()) {
            return;
        }
        let before = self.taken.fetch_add(1, Ordering::SeqCst);
        if let Ok(number) = usize::try_from(before) {
            if let Some(place) = self.notes.get(number) {
                let _ = place.try_set(note);
            }
        }
    }

    /// Adds the notes to `text`, and how many others there were.
    fn add_notes_and_count_of_others(
        &self,
        alloc: Global,
        text: &mut String,
    ) -> Result<(), AllocError> {
        let mut others = self.count.load(Ordering::SeqCst);
        for place in &self.notes {
            if let Some(note) = place.get() {
                text.push_str(note.text.as_str())?;
                others = others.saturating_sub(1);
            }
        }
        if others > 0 {
            text.push_str(format!(in alloc; "client: {others} more like these\n")?.as_str())?;
        }
        Ok(())
    }
}

impl Notes {
    /// No notes.
    pub fn new(alloc: Global) -> Result<Notes, AllocError> {
        Ok(Notes {
            alloc,
            not_asked: KeptNotes::new(alloc)?,
            not_answered: KeptNotes::new(alloc)?,
            failed: KeptNotes::new(alloc)?,
            unknown: KeptNotes::new(alloc)?,
            no_value: KeptNotes::new(alloc)?,
            misfit: KeptNotes::new(alloc)?,
            lines_too_many: KeptNotes::new(alloc)?,
            waits: ClientWaits::new(alloc)?,
            failed_resets: AtomicU64::new(0),
            burst_drives: AtomicU64::new(0),
            calls_that_may_be_late: AtomicU64::new(0),
        })
    }

    /// Counts the drives of a burst.
    pub(crate) fn count_burst_drives(&self, drives: u64) {
        self.burst_drives.fetch_add(drives, Ordering::SeqCst);
    }

    /// How many drives the bursts of the clients had.
    pub fn burst_drives(&self) -> u64 {
        self.burst_drives.load(Ordering::SeqCst)
    }

    /// Which clients have a line that they have not answered yet.
    pub fn waits(&self) -> &ClientWaits {
        &self.waits
    }

    /// How many resets failed since the last one that did not.
    pub fn failed_resets_since_last_success(&self) -> u64 {
        self.failed_resets.load(Ordering::SeqCst)
    }

    /// Counts a reset that failed.
    pub(crate) fn count_failed_reset(&self) {
        self.failed_resets.fetch_add(1, Ordering::SeqCst);
    }

    /// Notes that a reset did not fail.
    pub(crate) fn forget_failed_resets(&self) {
        self.failed_resets.store(0, Ordering::SeqCst);
    }

    /// Whether a call had an unknown outcome or ended its client, so that it may take effect in a later run.
    pub fn has_call_that_may_be_late(&self) -> bool {
        self.calls_that_may_be_late.load(Ordering::SeqCst) > 0
    }

    /// Counts a call that had an unknown outcome or ended its client.
    pub(crate) fn count_call_that_may_be_late(&self) {
        self.calls_that_may_be_late.fetch_add(1, Ordering::SeqCst);
    }

    fn notes_of_kind(&self, kind: NoteKind) -> &KeptNotes {
        match kind {
            NoteKind::NotAsked => &self.not_asked,
            NoteKind::NotAnswered => &self.not_answered,
            NoteKind::Failed => &self.failed,
            NoteKind::Unknown | NoteKind::EndedUnknown => &self.unknown,
            NoteKind::NoValue => &self.no_value,
            NoteKind::Misfit => &self.misfit,
            NoteKind::MoreLines | NoteKind::Stray => &self.lines_too_many,
        }
    }

    fn make_note_on_badly_answered_line(
        &self,
        client: ClientId,
        wrong: &BadlyAnsweredLine<'_>,
    ) -> Result<Note, AllocError> {
        let line = printable_beginning_of_trimmed_line(
            self.alloc,
            std::str::from_utf8(wrong.line).unwrap_or(""),
        )?;
        let answer = printable_beginning_of_trimmed_line(self.alloc, wrong.answer)?;
        let (operation, _) = line.as_str().split_once(',').unwrap_or((line.as_str(), ""));
        let worker = client.worker.saturating_add(1);
        let branch = client.branch.saturating_add(1);
        let (what, hint) = (wrong.kind.phrase_about_line(), wrong.hint);
        let topic = if wrong.kind.is_of_lines_too_many() {
            String::from_str(self.alloc, operation)?
        } else {
            format!(in self.alloc; "{operation} {answer}")?
        };
        Ok(Note {
            topic,
            text: format!(in self.alloc;
                "client {worker}-{branch}: {line} {what} {answer}{hint}\n"
            )?,
        })
    }

    /// Notes what went wrong with a client's line.
    pub(crate) fn note_badly_answered_line(&self, client: ClientId, wrong: &BadlyAnsweredLine<'_>) {
        let kept = self.notes_of_kind(wrong.kind);
        kept.count.fetch_add(1, Ordering::SeqCst);
        if kept.is_full() {
            return;
        }
        if let Ok(note) = self.make_note_on_badly_answered_line(client, wrong) {
            kept.keep_note_if_new_topic_and_room(note)
        }
    }

    /// The notes, each as a line such as `client 1-2: ["inc"] was answered with failed: no connection`.
    pub fn text(&self) -> Result<String, AllocError> {
        let mut text = String::new(self.alloc);
        for kind in KINDS {
            self.notes_of_kind(kind)
                .add_notes_and_count_of_others(self.alloc, &mut text)?;
        }
        Ok(text)
    }
}
