#![tactic(auto, unfolding(folds::specs::Folds::fold_to, crate::specs::Line::dot, crate::specs::Line::line_dist, crate::proofs::Best::best_below))]

ghost use Rattle.std.specs.Prelude.{◌≡◌, ◌<◌};
ghost use Rattle.stairs.specs.Line.{dot, line_dist};
ghost use Rattle.stairs.specs.Staircase.{best_of, Reached};

// The straight line from the origin to an offset d; dd is d · d.
#[derive(Clone, Copy)]
pub struct Line {
    d: [i32; 3],
    dd: f64,
    ghost square: { dd ≡ dot d d },
}

// The sum of the products, axis by axis.
fn dot_product(p: [i32; 3], d: [i32; 3]) -> f64
    ensures { result ≡ dot p d }
{
    let along = |a: usize| f64::from(p[a]) * f64::from(d[a]);
    0.0 + along(0) + along(1) + along(2)
}

impl Line {
    pub fn to(d: [i32; 3]) -> Self
        ensures { result.d ≡ d }
    {
        Self {
            d,
            dd: dot_product(d, d),
        }
    }

    // The square of the distance of a place.
    fn line_dist(self, p: [i32; 3]) -> f64
        ensures { result ≡ line_dist p self.d }
    {
        let t = dot_product(p, self.d) / self.dd;
        let square = |a: usize| {
            let e = f64::from(p[a]) - t * f64::from(self.d[a]);
            e * e
        };
        0.0 + square(0) + square(1) + square(2)
    }

    // The axis of the step that keeps nearest to the line: of equally near ones the first. At the offset
    // itself no step is left, and the definition has 0.
    pub fn best_axis(self, p: [i32; 3]) -> usize
        requires { Reached p }
        ensures axis { result ≡ best_of p self.d }
        ensures in_space { result < 3 }
    {
        let mut best = None;
        // By an axis' number: it is what is answered, and both the place and the offset are read at it.
        for a in 0..3 {
            if p[a] != self.d[a] {
                let mut q = p;
                q[a] += self.d[a].signum();
                let dist = self.line_dist(q);
                if best.is_none_or(|(_, least)| dist < least) {
                    best = Some((a, dist));
                }
            }
        }
        best.map_or(0, |(a, _)| a)
    }
}
