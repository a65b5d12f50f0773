//! What tokens name apart from any problem, and which version is later.

ghost use Rattle.std.specs.Prelude.{◌≡◌, ◌<◌, ℕ, List, None, Some, Ok, length, option_map};
ghost use Rattle.deb_version.specs.Versions.{parts};
ghost use Rattle.universe_model.specs.Universes.{version_numbered};
ghost use Rattle.universe.specs.Said.{token_said};
ghost use Rattle.universe.specs.TokenNumbers.{number_named, token_number, is_later_text, is_later_version};

use crate::Universe;
use crate::tokens::{Said, read_token};
use deb_version::{Version, compare};
use universe_model::TokenFault;

// Whether a version is later than another.
fn is_later_text(version: Option<Version<'_>>, other: Option<Version<'_>>) -> bool
    ensures { result ≡ is_later_text (option_map (λ v. v.text.now) version.entry) (option_map (λ v. v.text.now) other.entry) }
{
    match (version, other) {
        (Some(version), Some(other)) => compare(&version, &other).is_gt(),
        _ => false,
    }
}

impl Universe {
    // A version as it is read from its text; absent has none.
    fn version_read(&self, number: u32) -> Option<Version<'_>>
        requires { number < length self.now.versions }
        ensures { option_map (λ v. v.text.now) result ≡ (version_numbered self.now number).text }
    {
        let _ = &self.versions;
        match self.version_text(number) {
            None => None,
            Some(text) => match Version::read(text) {
                Ok(version) => Some(version),
                Err(_) => None,
            },
        }
    }

    /// Whether a version is later than another in the order of versions (Debian Policy 5.6.12). Absent is neither earlier nor later
    /// than any.
    pub fn is_later(&self, version: u32, other: u32) -> bool
        requires version { version < length self.now.versions }
        requires other { other < length self.now.versions }
        ensures { result ≡ is_later_version self.now version other }
    {
        is_later_text(self.version_read(version), self.version_read(other))
    }

    // The number of the choice that a token with this version names.
    fn number_said(&self, version: u32, said: &Said<'_>) -> Option<u32>
        requires { version < length self.now.versions }
        ensures { result ≡ number_named self.now version (token_said said.now) }
    {
        match said {
            Said::Removal(_) | Said::Release(_, _) => Some(version),
            Said::Group(_, _, place) => {
                let dep = self.recommends_of(version, *place)?;
                Some(self.problem.versions() + dep)
            }
        }
    }

    /// The number of the choice that a token names, apart from any problem: it is that in each problem where the number is a choice,
    /// and the token names none where it is not. A group of Recommends that is not there or gave no dependency has no number. Else the
    /// first of the faults is answered: the text is no token, no package has its name, or the package has no such version.
    pub fn token_number(&self, token: &[u8]) -> Result<Option<u32>, TokenFault>
        ensures { result ≡ token_number self.now token.now }
    {
        let Some(said) = read_token(token) else {
            return Err(TokenFault::NotAToken);
        };
        let Some(package) = self.package(said.name()) else {
            return Err(TokenFault::NoSuchPackage);
        };
        let Some(version) = self.version_said(package, &said) else {
            return Err(TokenFault::NoSuchVersion);
        };
        Ok(self.number_said(version, &said))
    }
}
