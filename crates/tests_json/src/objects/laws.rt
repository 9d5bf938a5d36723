//! The laws of `pmb_json_text`: each is called once.

use pmb_json_text::laws;

#[test]
fn calls_each_law() {
    laws::spelling_is_json();
    laws::line_is_json();
    laws::spelling_reads_back();
    laws::line_reads_back();
    laws::spelling_fits_in_line();
    laws::one_string();
    laws::digits_are_a_number();
    laws::members_follow_members();
    laws::values_follow_values();
    laws::line_in_pieces();
    laws::array_in_pieces();
    laws::fewer_keys_are_distinct();
    laws::tested_keys_are_distinct();
}
