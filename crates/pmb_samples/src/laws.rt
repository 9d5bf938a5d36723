//! The law of recordings as samples: the function is its contract, and does nothing.

ghost use Rattle.pmb_samples.specs.Reads.{TellsItsReads};

use pmb_wire_packets::laws::reads_all_pieces;

/// What is told of samples is the capture of what their lines give, moments of both wires and faults,
/// and that no line names both, where that is so.
pub fn tells_its_reads()
    ensures { TellsItsReads }
{
    reads_all_pieces();
}
