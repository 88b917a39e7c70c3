// What the text of a reply says about a change.
ghost use Rattle.std.specs.Prelude.{◌≡◌, ◌≤◌, ◌+◌, [], ◌++◌, if◌then◌else◌, min, length, sum};
ghost use Rattle.ts_journal.specs.Lines.{after_line, begins_error, items_text, begins_number, pieces, accepted_pieces};
ghost use Rattle.ts_journal.specs.Lines.{joined, words_in};

use bytes::BytesMut;

// The bytes after the first line.
pub(crate) fn after_line(mut text: &[u8]) -> &[u8]
    ensures { result.now ≡ after_line text.entry.now }
{
    while let [byte, rest @ ..] = text {
        if *byte == b'\r' {
            return match rest {
                [_, after @ ..] => after,
                [] => rest,
            };
        }
        text = rest;
    }
    text
}

// The text of an array's items.
pub(crate) fn items(reply: &[u8]) -> &[u8]
    ensures { result.now ≡ items_text reply.now }
{
    match reply {
        [b'*', ..] => after_line(reply),
        _ => &[],
    }
}

// Whether the reply is an error.
pub(crate) fn is_error(reply: &[u8]) -> bool
    ensures { result ≡ begins_error reply.now }
{
    match reply {
        [first, ..] => *first == b'-',
        [] => false,
    }
}

// Appends the pieces whose items are numbers, and returns how many arguments they have. The buffer has the capacity.
pub(crate) fn append_accepted(
    mut bytes: &[u8],
    lens: &[usize],
    mut items: &[u8],
    room: &mut BytesMut,
) -> usize
    requires lens { sum lens.now ≤ length bytes.now }
    requires room { length bytes.now ≤ room.old.spare }
    ensures bytes { room.new.items
        ≡ room.old.items ++ joined (accepted_pieces items.entry.now (pieces lens.now bytes.entry.now)) }
    ensures total { length room.new.items + room.new.spare ≡ length room.old.items + room.old.spare }
    ensures few { result ≤ length room.new.items }
    ensures words { result ≡ words_in (accepted_pieces items.entry.now (pieces lens.now bytes.entry.now)) }
{
    let mut words = 0;
    for len in lens {
        let (piece, rest) = bytes.split_at(*len);
        words += append_if(begins_number(items), piece, room);
        items = after_line(items);
        bytes = rest;
    }
    words
}

// Appends a piece if it is wanted, and returns how many arguments it has. An empty piece belongs to a triple without a
// time or a value; any other has three.
fn append_if(wanted: bool, piece: &[u8], room: &mut BytesMut) -> usize
    requires { length piece.now ≤ room.old.spare }
    ensures bytes { room.new.items ≡ room.old.items ++ (if wanted then piece.now else []) }
    ensures words { result ≡ (if wanted then min 3 (length piece.now) else 0) }
    ensures grows { length room.old.items + result ≤ length room.new.items }
    ensures room { room.old.spare ≤ room.new.spare + length piece.now }
    ensures total { length room.new.items + room.new.spare ≡ length room.old.items + room.old.spare }
{
    if wanted {
        room.extend_reserved(piece);
        piece.len().min(3)
    } else {
        0
    }
}

// Whether a text begins with an integer reply.
fn begins_number(text: &[u8]) -> bool
    ensures { result ≡ begins_number text.now }
{
    match text {
        [first, ..] => *first == b':',
        [] => false,
    }
}
