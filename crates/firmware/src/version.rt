// Which library this is, so that a header and an archive that do not belong together are found.
ghost use Rattle.std.specs.Prelude.{◌≡◌};

// The number that include/dockplan.h has as DOCKPLAN_VERSION: 107 for 1.7. It grows whenever a call is added or changed, or uses more stack by its own
// code; a newer compiler alone does not move it.
pub fn dockplan_version() -> u32
    ensures { result ≡ 107 }
{
    107
}
