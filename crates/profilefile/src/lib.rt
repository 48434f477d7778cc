// The profile of the rule in a file.
#![tactic(auto)]

ghost use Rattle.std.specs.Prelude.{◌≡◌};
ghost use Rattle.profile.specs.Profiles.{build_outcome};
ghost use Rattle.profilefile.specs.Files.{profile_in};

use base::Refusal;
use profile::Profile;

// Reads a rule file and builds its profile. What is refused is refused as reading the file, or building
// the profile, refuses it.
pub fn build_file(file: &[u8]) -> Result<Profile, Refusal>
    ensures { build_outcome result ≡ profile_in file.now }
{
    let rule = rulefile::read(file)?;
    profile::build(rule)
}
