// The scales by which grades are told.
ghost use Rattle.std.specs.Prelude.{◌≡◌};
ghost use Rattle.lti_words.specs.declared.command.Rounding.TheVariants.{Floor, Nearest, Ceiling};

use lti_words::Rounding;
use score_decimal::Scale;

/// The scale of each word by which points are asked for: the greatest whole number that isn't above the exact share, the
/// nearest, or the least that isn't below it. Each keeps what `Scale` promises of its points, whatever it was made of.
#[derive(Drop)]
pub struct Scales {
    pub floor: Scale,
    pub nearest: Scale,
    pub ceiling: Scale,
}

impl Scales {
    /// The scale of a rounding.
    pub(crate) fn of(&self, rounding: Rounding) -> &Scale
        ensures floor { rounding ≡ Floor → result.now ≡ self.now.floor }
        ensures nearest { rounding ≡ Nearest → result.now ≡ self.now.nearest }
        ensures ceiling { rounding ≡ Ceiling → result.now ≡ self.now.ceiling }
    {
        match rounding {
            Rounding::Floor => &self.floor,
            Rounding::Nearest => &self.nearest,
            Rounding::Ceiling => &self.ceiling,
        }
    }
}
