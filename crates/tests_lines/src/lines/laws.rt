//! The laws of `pmb_line`: each is called once.

use pmb_line::laws;

#[test]
fn calls_each_law() {
    laws::one_transaction();
    laws::line_spells();
    laws::packet_has_line();
    laws::one_line_fault();
    laws::no_parse_with_a_fault();
}
