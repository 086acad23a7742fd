ghost use Rattle.std.specs.Prelude.{◌≡◌, [], ◌∷◌, codes};
ghost use Rattle.move_directions.specs.Text.{moves_text};

use move_directions::MoveList;
use std::alloc::Global;

/// The definitions give the texts of worked rows.
fn the_definitions_spell_the_rows()
    ensures no_moves { moves_text [] ≡ codes "moves 0\n" }
    ensures one_move { moves_text
        (record {
          source = record { «module» = 13; block = 63 };
          destination = record { «module» = 0; block = 10 };
        } ∷ []) ≡ codes "moves 1\nmove 13 63 0 10\n" }
{}

/// Whether a text is read as so many moves, and written as it was.
fn is_written(alloc: Global, text: &str, count: usize) -> Option<bool> {
    let moves = MoveList::read(alloc, text.as_bytes()).ok()?;
    let written = moves.write().ok()?;
    Some(moves.len() == count && written.as_slice() == text.as_bytes())
}

#[test]
fn moves_are_read_and_written(rt: HostRuntime) {
    let two = "moves 2\nmove 0 0 1 0\nmove 31 63 31 0\n";
    let is_none_written = is_written(rt.alloc(), "moves 0\n", 0) == Some(true);
    assert!(rt; is_none_written && is_written(rt.alloc(), two, 2) == Some(true));
}
