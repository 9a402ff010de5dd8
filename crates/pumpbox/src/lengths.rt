// The version of the calls; lengths, for a caller who has to lend memory: 0 if a code or a first
// byte is refused.
ghost use Rattle.std.specs.Prelude.{◌≡◌};
ghost use Rattle.code.specs.Sound.{made};
ghost use Rattle.pumpbox.specs.Lengths.{version, length_in, dimension_in, record_length};

use code::Code;

// Raised together with the header's.
const VERSION: u32 = 17;

#[unsafe(no_mangle)]
pub extern "C" fn cinorbis_version() -> u32
    ensures { result ≡ version }
{
    VERSION
}

#[unsafe(no_mangle)]
pub extern "C" fn cinorbis_length(m: u32) -> usize
    ensures { result ≡ length_in (made 0 m) }
{
    match Code::new(0, m) {
        Ok(code) => code.length(),
        Err(_) => 0,
    }
}

#[unsafe(no_mangle)]
pub extern "C" fn cinorbis_dimension(r: u32, m: u32) -> usize
    ensures { result ≡ dimension_in (made r m) }
{
    match Code::new(r, m) {
        Ok(code) => code.dimension(),
        Err(_) => 0,
    }
}

#[unsafe(no_mangle)]
pub extern "C" fn cinorbis_record_length(first: u32) -> usize
    ensures { result ≡ record_length first }
{
    match u8::try_from(first) {
        Ok(first) => record::record_length(first),
        Err(_) => 0,
    }
}
