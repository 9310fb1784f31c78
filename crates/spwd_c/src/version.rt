// The version of what C sees, so that a header and an archive that do not belong together can be told apart.
ghost use Rattle.std.specs.Prelude.{◌≡◌};
ghost use Rattle.spwd_c.specs.Exports.{interface_version};

const VERSION: u32 = 5;

#[unsafe(no_mangle)]
pub extern "C" fn spwd_c_version() -> u32
    ensures { result ≡ interface_version }
{
    VERSION
}
