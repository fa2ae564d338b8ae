// What the notes of both services say.
ghost use Rattle.std.specs.Prelude.{◌≡◌};
ghost use Rattle.tables.specs.Notes.{note_of, undo_of};

use service::Note;

// How a doing is taken back.
#[derive(Clone, Copy, PartialEq, Eq, Debug)]
pub(crate) enum Undo {
    // Nothing was done.
    Nothing,
    // The newest element was put in.
    PutIn,
    // An element was taken out of a place.
    TakenOut { place: u8, value: i32, channel: u8 },
}

// A kind of note that neither service gives: a byte, as it stands in the note.
#[derive(Clone, Copy, PartialEq, Eq, Debug)]
pub(crate) struct UnknownKind {
    kind: u8,
}

impl From<Undo> for Note {
    ghost from_gives = { λ undo note. note ≡ note_of undo };

    fn from(undo: Undo) -> Note {
        match undo {
            Undo::Nothing => Note::nothing(),
            Undo::PutIn => Note {
                kind: 1,
                ..Note::nothing()
            },
            Undo::TakenOut {
                place,
                value,
                channel,
            } => Note {
                kind: 2,
                place,
                value,
                channel,
            },
        }
    }
}

// The one place where the byte of a kind is read.
impl TryFrom<Note> for Undo {
    type Error = UnknownKind;

    ghost try_from_gives = { λ note result. result ≡ undo_of note };

    fn try_from(note: Note) -> Result<Undo, UnknownKind> {
        match note.kind {
            0 => Ok(Undo::Nothing),
            1 => Ok(Undo::PutIn),
            2 => Ok(Undo::TakenOut {
                place: note.place,
                value: note.value,
                channel: note.channel,
            }),
            kind => Err(UnknownKind { kind }),
        }
    }
}
