#![tactic(auto, using(rows::proofs::Refusals::refusal_answered))]

ghost use Rattle.fields.specs.Calls.{stout_call};
ghost use Rattle.export.specs.Given.{MatrixGiven};
ghost use Rattle.export.specs.Lists.{SmearGiven};

use crate::given::give;
use mat::Su3;
use rows::row;

#[unsafe(no_mangle)]
pub extern "C" fn jj_stout_link(
    ext: &[usize; 4],
    site: usize,
    mu: usize,
    rho: f64,
    links: &[f64],
    out: &mut [f64; 18],
) -> u32
    ensures { MatrixGiven (stout_call ext.now site mu rho links.now) result out.new }
{
    give(
        fields::stout_link(*ext, site, mu, rho, links),
        Su3::ZERO,
        out,
    )
}

#[unsafe(no_mangle)]
pub extern "C" fn jj_stout_step(
    ext: &[usize; 4],
    rho: f64,
    links: &[f64],
    smeared: &mut [f64],
) -> u32
    ensures { SmearGiven ext.now rho links.now smeared.old result smeared.new }
{
    row(fields::stout_step(*ext, rho, links, smeared))
}
