// What was declared so far, and the place reached. No extension is made before the field is named.
ghost use Rattle.std.specs.Prelude.{◌≡◌, true, []};
ghost use Rattle.drafts.specs.Drafts.{extensions};
ghost use Rattle.places.specs.Places.{early};

use drafts::Draft;
use places::Place;

#[derive(Clone, Copy)]
pub struct Reader {
    pub(crate) draft: Draft,
    pub(crate) place: Place,
    ghost unextended: { (early place ≡ true → extensions draft ≡ []) },
}
