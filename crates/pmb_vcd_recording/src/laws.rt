//! The law of recordings in a VCD: the function is its contract, and does nothing.

ghost use Rattle.pmb_vcd_recording.specs.Reads.{TellsItsReads};

use pmb_wire_packets::laws::reads_all_pieces;

/// What is told of a VCD is the capture of the moments and faults that its lines give, and that its
/// head does not end, where that is so.
pub fn tells_its_reads()
    ensures { TellsItsReads }
{
    reads_all_pieces();
}
