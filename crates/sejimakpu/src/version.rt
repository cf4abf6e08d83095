// The version of the archive that is linked: by it a program names what judged, and sees that its header is of the same version.
ghost use Rattle.std.specs.Prelude.{◌≡◌};
ghost use Rattle.sejimakpu.specs.Version.{version_number};

// 0.1.0, as one number. It takes no slice, and so its name does not say nonnull.
pub fn sejimakpu_version() -> u32
    ensures { result ≡ version_number }
{
    1_000
}
