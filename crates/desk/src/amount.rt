// Amounts in text: one number, or those of a basket joined by commas.
ghost use Rattle.std.specs.Prelude.{◌≡◌, ℕ, List, Some, refl};
ghost use Rattle.money.specs.Amounts.{Amount};
ghost use Rattle.money.specs.Texts.{satoshi_text, basket_text};

use money::basket::Basket;
use money::kind::Money;
use money::satoshi::Satoshi;
use std::fmt;

// Money that prints what it means.
pub trait Show: Money + fmt::Display {
    // The text of an amount.
    ghost shown: { Amount → List ℕ };

    ghost prints: { (x : Self) → Self.Display.output x ≡ Some (shown (Self.Money.asset x)) };
}

impl Show for Satoshi {
    ghost shown = { satoshi_text };

    ghost prints = { λ x. refl };
}

impl Show for Basket {
    ghost shown = { basket_text };

    ghost prints = { λ x. refl };
}
