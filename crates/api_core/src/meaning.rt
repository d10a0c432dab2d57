//! What a core means.
use crate::present::Core;
use api_calls::Versions;
use api_calls::laws::Means;
use record_store::Texts;

impl<V: Versions> Means for Core<V> {
    ghost meaning = { λ c. V.meaning c.versions };
}

impl<V: Versions> Texts for Core<V> {
    ghost use Rattle.api_core.specs.Keeps.{IsText};

    ghost text = { λ c e bytes. IsText (V.meaning c.versions) e.at e.h bytes };
}
