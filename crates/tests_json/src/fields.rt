//! Tests of what an object says of a command's data, over the public names of `pmb_json_fields`: tables of
//! words and registers, worked out with exact fractions and by hand, commands of a profile, and lines after
//! which a device's VOUT_MODE is known or not.

mod contexts;
mod example;
mod numbers;
mod profiles;
mod registers;
mod says;
mod voltages;
