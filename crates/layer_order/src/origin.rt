//! Where a style sheet comes from (css-cascade-5, section 6.2).

ghost use Rattle.std.specs.Prelude.{◌≡◌};
ghost use Rattle.base_model.specs.Origin.{origin_rank};
ghost use Rattle.layer_order.specs.View.{origin_of};

/// The origin of a style sheet.
#[derive(Clone, Copy, Debug, PartialEq, Eq)]
pub enum Origin {
    UserAgent,
    User,
    Author,
}

impl Origin {
    /// How high its normal declarations are: the user agent's 0, the user's 1, the author's 2.
    pub fn rank(self) -> u32
        ensures { result ≡ origin_rank (origin_of self) }
    {
        match self {
            Origin::UserAgent => 0,
            Origin::User => 1,
            Origin::Author => 2,
        }
    }
}
