use anyhow::Result;
use mat::Su3;
use quat::{Mat2, Quat};
use rows::row_and_value;
use sample::hash::{Fnv, Hashed};
use sample::inputs::{Pair, Set, block, pair_at, quaternion};

// A line for a call: the hash of its answers to 400 pairs.
fn line<T: Hashed, F: Fn(Pair) -> T>(rt: &impl Print, set: Set, name: &str, call: F) -> Result<()>
    requires { F.IsAlwaysCallable call }
{
    let h = Fnv::over(400, |i| call(pair_at(set, i as u64)));
    println!(rt; "{set} {name} {h}")?;
    Ok(())
}

fn matrices(rt: &impl Print, set: Set) -> Result<()> {
    line(rt, set, "mul", |p| p.a * p.b)?;
    line(rt, set, "mul_dag", |p| p.a.mul_dag(p.b))?;
    line(rt, set, "dag_mul", |p| p.a.dag_mul(p.b))?;
    line(rt, set, "add", |p| p.a + p.b)?;
    line(rt, set, "sub", |p| p.a - p.b)?;
    line(rt, set, "dagger", |p| p.a.dagger())?;
    line(rt, set, "scale", |p| p.a.scale(p.b.m[0].re))
}

fn derived(rt: &impl Print, set: Set) -> Result<()> {
    line(rt, set, "trace", |p| p.a.trace())?;
    line(rt, set, "re_tr", |p| p.a.re_tr())?;
    line(rt, set, "dist_sqr", |p| p.a.dist_sqr(p.b))?;
    line(rt, set, "det", |p| p.a.det())?;
    line(rt, set, "reunitarize", |p| p.a.reunitarize())?;
    line(rt, set, "traceless_antihermitian", |p| {
        p.a.traceless_antihermitian()
    })?;
    line(rt, set, "exp_antihermitian", |p| {
        Su3::exp_antihermitian(p.a)
    })
}

// A row and a value each: 0, or zeros.
fn subgroups(rt: &impl Print, set: Set) -> Result<()> {
    line(rt, set, "sub_block", |p| {
        row_and_value(quat::sub_block(p.a, p.subgroup), Mat2::ZERO)
    })?;
    line(rt, set, "left_mul_sub", |p| {
        row_and_value(quat::left_mul_sub(p.a, p.subgroup, block(p.b)), Su3::ZERO)
    })
}

fn quaternions(rt: &impl Print, set: Set) -> Result<()> {
    line(rt, set, "quat_project", |p| Quat::project(block(p.a)))?;
    line(rt, set, "quat_norm", |p| quaternion(p.a).norm())?;
    line(rt, set, "quat_conj", |p| quaternion(p.a).conj())?;
    line(rt, set, "quat_mul", |p| {
        quaternion(p.a).mul(quaternion(p.b))
    })?;
    line(rt, set, "quat_to_mat", |p| quaternion(p.a).to_mat())
}

// A line for each call on matrices.
pub fn lines(rt: &impl Print, set: Set) -> Result<()> {
    matrices(rt, set)?;
    derived(rt, set)?;
    subgroups(rt, set)?;
    quaternions(rt, set)
}

// The same for the update of a link a with the staple b.
pub fn update_line(rt: &impl Print, set: Set) -> Result<()> {
    line(rt, set, "update_link", |p| {
        row_and_value(sweep::update_link(p.a, p.b), Su3::ZERO)
    })
}
