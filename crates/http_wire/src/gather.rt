// Pieces that are gathered before they are given to a sink.
ghost use Rattle.std.specs.Prelude.{◌≡◌, ◌++◌, ℕ, List, [], OnOk, OnErr};
ghost use Rattle.lti_outside.specs.Traffic.{Moves, no_fault, GivesFront};
ghost use Rattle.http_wire.specs.Pieces.{joined};

use crate::draft::Draft;
use lti_outside::{Sink, WriteFault, give_all};

// Holds a piece back in the draft where there is room for it, and otherwise gives what the draft holds first.
fn add<O: Sink>(sink: &mut O, draft: &mut Draft, piece: &[u8]) -> Result<(), WriteFault>
    ensures added { OnOk result ((given : List ℕ) × Moves (O.traffic sink.old) (O.traffic sink.new) [] given no_fault
        × (draft.old ++ piece.now ≡ given ++ draft.new)) }
    ensures failed { OnErr result (GivesFront (O.traffic sink.old) (O.traffic sink.new) (draft.old ++ piece.now)) }
{
    if piece.len() <= draft.spare() {
        draft.push(piece);
        return Ok(());
    }
    give_all(sink, draft.get())?;
    draft.clear();
    if piece.len() <= draft.spare() {
        draft.push(piece);
        return Ok(());
    }
    give_all(sink, piece)
}

/// Gives all pieces, in few calls. At an `Err` a proper front of them was given.
pub(crate) fn give_pieces<O: Sink>(sink: &mut O, pieces: &[&[u8]]) -> Result<(), WriteFault>
    ensures given { OnOk result (Moves (O.traffic sink.old) (O.traffic sink.new) [] (joined pieces.now) no_fault) }
    ensures failed { OnErr result (GivesFront (O.traffic sink.old) (O.traffic sink.new) (joined pieces.now)) }
{
    let mut draft = Draft::new();
    for piece in pieces {
        add(sink, &mut draft, piece)?;
    }
    give_all(sink, draft.get())
}
