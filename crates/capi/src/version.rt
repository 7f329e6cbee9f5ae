// The version of the interface, in the function's name: a program that is compiled for one version links with no other.
ghost use Rattle.std.specs.Prelude.{◌≡◌};

// The version as a number: major × 10,000 + minor × 100 + patch.
#[unsafe(no_mangle)]
pub extern "C" fn mitongory_version_0_8() -> u32
    ensures { result ≡ 800 }
{
    800
}
