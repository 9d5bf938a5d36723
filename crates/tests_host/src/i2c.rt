//! Tests of `pmb_i2c`: messages to the devices of the sample profile, with what is recorded of them, told
//! by hand and beside the rules in words.

mod messages;
mod plain;
mod random;
