//! Whole texts.

use crate::bus::cuts::spells;
use std::io;

/// A name, a text, and what is read in it: the text of its events, and after `!` the offset of its first
/// bad word if it has one.
type Row = (&'static str, &'static [u8], &'static str);

// A function, so that the proof of the loop doesn't carry the rows.
#[rattlefmt::skip]
fn rows() -> &'static [Row] {
    &[
        ("no bytes", b"", ""),
        ("separators alone", b" \t\r\n", ""),
        ("a packet", b"S b0 A 21 A 00 A 18 A P", "S b0 A 21 A 00 A 18 A P\n"),
        ("digits of either case", b"B0 bA Fe 9f", "b0 ba fe 9f "),
        ("A as a token and as a digit", b"A A5 5a AA N", "A a5 5a aa N "),
        ("tabs and CR LF", b"S\tb0\t\tN\r\nP\r\n", "S b0 N P\n"),
        ("a tab behind each token", b"S\tb0\tA\tP\t", "S b0 A P\n"),
        ("a CR behind each token", b"S\rb0\rA\rP\r", "S b0 A P\n"),
        ("a LF behind each token", b"S\nb0\nA\nP\n", "S b0 A P\n"),
        ("comments", b"# S\n\nS # b0 Z\nP # end", "S P\n"),
        ("a comment behind a letter", b"S#x", "S "),
        ("a comment behind two digits", b"b0#x\nP#", "b0 P\n"),
        ("a comment behind one letter and one LF", b"S#\nP ", "S P\n"),
        ("tokens in a comment", b"S#P A\nN ", "S N "),
        ("a comment goes on behind a CR", b"# a\r S\nP", "P\n"),
        ("a comment goes on behind a hash", b"##S\nP", "P\n"),
        ("a comment with no end", b"S # P A", "S "),
        ("separators in front of tokens", b"  S \t b0 \r\n P", "S b0 P\n"),
        ("one letter at the end", b"N", "N "),
        ("one letter and a separator", b"N ", "N "),
        ("two digits at the end", b"5a", "5a "),
        ("two digits and a separator", b"5a\n", "5a "),
        ("a letter behind two digits", b"5a S", "5a S "),
        ("two digits behind a letter", b"S 5a", "S 5a "),
        ("a bad word at the end", b"S b0 X", "S b0 ! 5"),
        ("a bad word in the middle", b"S b0 X P", "S b0 ! 5"),
        ("a small s", b"s", "! 0"),
        ("a small s and a separator", b"s P", "! 0"),
        ("a small p and a separator", b"A p ", "A ! 2"),
        ("a small n and a separator", b"n\tA", "! 0"),
        ("a small a and a separator", b"a A ", "! 0"),
        ("one digit and a separator", b"5 ", "! 0"),
        ("one digit at the end", b"5", "! 0"),
        ("one digit and a comment", b"P\n5#", "P\n! 2"),
        ("three digits", b"b0c", "! 0"),
        ("three digits and a separator", b"b0c S ", "! 0"),
        ("two digits and a letter", b"b0S ", "! 0"),
        ("two digits and a bad byte", b"S b0_ ", "S ! 2"),
        ("two letters", b"SS", "! 0"),
        ("two letters and a separator", b"A SP ", "A ! 2"),
        ("a letter and a digit", b"S5 ", "! 0"),
        ("a digit and a letter", b"5S ", "! 0"),
        ("a digit and a bad byte", b"A 5g ", "A ! 2"),
        ("a bad byte and a digit", b"A g5 ", "A ! 2"),
        ("a bad word behind a comment", b"# c\nA\n AG", "A ! 7"),
        ("a bad word behind CR LF", b"S b0\r\nA\r\nx\r\n", "S b0 A ! 9"),
        ("a byte of 0", b"S \x00", "S ! 2"),
        ("a byte of 255", b"b0 \xff ", "b0 ! 3"),
        ("a bad word behind many separators", b"S        ? ", "S ! 9"),
    ]
}

#[test]
fn each_row_spells_its_events(rt: HostRuntime) -> io::Result<()> {
    for &(name, text, wanted) in rows() {
        spells(&rt, rt.alloc(), name, text, wanted)?;
    }
    Ok(())
}
