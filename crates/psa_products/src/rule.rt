ghost use Rattle.std.specs.Prelude.{Bool};

use psa_model::Product;

/// A rule that keeps some products. Every closure from a product to `bool` is one.
pub trait Rule: Drop {
    ghost use Rattle.std.specs.Prelude.{Bool};
    ghost use Rattle.arrayvec.specs.ArrayVec.{ArrayVec};
    ghost use Rattle.psa_model.specs.declared.product.Literal.{Literal};

    /// The rule may be asked about this product.
    ghost may: { Self → ArrayVec Literal → Type 0 };

    /// The rule may answer so.
    ghost says: { Self → ArrayVec Literal → Bool → Type 0 };

    /// Whether the product is kept.
    fn keeps(&self, product: &Product) -> bool
        requires { may self.now product.now }
        ensures { says self.now product.now result };
}

impl<F: Fn(&Product) -> bool> Rule for F {
    ghost use Rattle.std.specs.Fn.{TakesAt, FnReturnsAt};

    ghost may = { TakesAt F.Fn };

    ghost says = { FnReturnsAt F.Fn };

    fn keeps(&self, product: &Product) -> bool {
        self(product)
    }
}
