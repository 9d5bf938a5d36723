//! The laws of packets of wires: each function is its contract, and does nothing.

ghost use Rattle.std.specs.Prelude.{◌≡◌, List, ℕ};
ghost use Rattle.pmb_wire_packets.specs.Drawn.{ReadsDrawn};
ghost use Rattle.pmb_wire_packets.specs.Packets.{Item, capture};
ghost use Rattle.pmb_wire_packets.specs.Pieces.{EachRises, Read, capture_of};
ghost use Rattle.pmb_wire_packets.specs.machine.Steps.{run_text, start};
ghost use Rattle.pmb_wire_packets.specs.machine.Wired.{fresh, run_text as reader_text};

use pmb_wires::laws::tells_signals;

/// What is told of signals and faults, one after the other, is the capture of them.
pub fn tells_the_capture()
    ensures { (origin timeout : ℕ) (items : List Item) → run_text (start timeout origin) items ≡ capture origin timeout items }
{}

/// What a reader tells of a recording is the capture of its pieces, if times rise within each.
pub fn reads_all_pieces()
    ensures { (glitch timeout origin : ℕ) (reads : List Read) → EachRises reads → reader_text (fresh glitch timeout origin) reads ≡ capture_of glitch timeout origin reads }
{
    tells_signals();
}

/// The wave form of any packets is read back: drawn by SMBus's rules, with phases that are long enough
/// to be no spikes and short enough for the time-out, it tells these packets with their times of
/// START, in order, and nothing else.
pub fn reads_drawn_packets()
    ensures { ReadsDrawn }
{}
