//! Tests of lines of JSON: members (`pmb_json_text`), what is said of a command's data (`pmb_json_fields`), and
//! the objects of a capture (`pmb_json_objects`, `pmb_facts`); of the lines of `log` (`pmb_log_lines`); and of what
//! the fields of data say (`pmb_meaning`).
#![tactic(auto)]

#[cfg(test)]
mod compare;
#[cfg(test)]
mod facts;
#[cfg(test)]
mod fields;
#[cfg(test)]
mod log_lines;
#[cfg(test)]
mod meaning;
#[cfg(test)]
mod object_lines;
#[cfg(test)]
mod objects;
