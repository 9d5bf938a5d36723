//! Which version of the library this is.
ghost use Rattle.std.specs.Prelude.{◌≡◌, ◌+◌, ◌*◌, ◌^◌};

/// The version: the major number in bits 31:16, the minor one in bits 15:8, the patch in bits 7:0.
/// 0.2.0 is 000200h.
#[unsafe(no_mangle)]
pub extern "C" fn pmb_version() -> u32
    ensures { result ≡ 0 * 2 ^ 16 + 2 * 2 ^ 8 + 0 }
{
    0x000200
}
