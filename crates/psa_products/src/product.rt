ghost use Rattle.std.specs.Prelude.{◌≡◌, ◌≤◌, take, length};
ghost use Rattle.psa_products.specs.Products.{literal_of};

use psa_model::{Literal, Product};

/// The literal with a number.
pub(crate) fn literal_with(number: u32) -> Literal
    ensures { result ≡ literal_of number }
{
    Literal {
        rank: number / 2,
        occurs: number % 2 == 0,
    }
}

/// A copy of a product.
pub(crate) fn copy_of(product: &Product) -> Product
    ensures { result.items ≡ product.now.items }
{
    let mut copy = Product::new();
    let _fits = copy.try_extend_from_slice(product.as_slice());
    copy
}

/// How many first literals two lists have in common.
pub fn common_length(left: &[Literal], right: &[Literal]) -> usize
    ensures same { take result left.now ≡ take result right.now }
    ensures left { result ≤ length left.now }
    ensures right { result ≤ length right.now }
{
    let mut count = 0;
    while count < left.len() && count < right.len() && left[count] == right[count] {
        count += 1;
    }
    count
}
