// The version of the C interface, which `slovdrim_version` hands on.
#![tactic(auto)]

ghost use Rattle.version.specs.Version.{VersionGives};

// inner: the number that grows when a call changes or comes.
pub fn version() -> u64
    ensures { VersionGives result }
{
    4
}
