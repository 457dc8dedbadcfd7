//! `transform`: any number of items for each item.
ghost use Rattle.std.specs.Prelude.{◌≡◌, ◌≢◌, ◌∷◌, ◌+◌, ◌*◌, ◌^◌, true, None, [], List, Result, MatchOption, length};
ghost use Rattle.flow_law.specs.chain.OperatorRuns.{prepended, transform_run};
ghost use Rattle.flow_operators.specs.Behind.{Leaves, after_transform, unless_empty};
ghost use Rattle.flow_operators.specs.Kept.{unless_ended, images_left};
ghost use Rattle.flow_operators.specs.Upstreams.{chain_of, is_ended};
ghost use Rattle.flow_operators.specs.Closures.{ComputesBy, FollowsBy, NeverRefuses};
ghost use Rattle.std.proofs.Common.{arith};
ghost use Rattle.std.proofs.lemmas.Grind.{common_steps};

use crate::cold::{Asked, Cold};
use crate::upstream::Upstream;
use flow_law::{ChainFault, FlowValue};

/// A chain of the items of the lists that a closure makes of each item.
#[derive(Drop)]
pub struct Transform<C, U: FlowValue, F> {
    pub(crate) upstream: Upstream<C>,
    pub(crate) images: Option<Vec<U>>,
    pub(crate) closure: F,
}

impl<C, U, F> Cold for Transform<C, U, F>
where
    C: Cold,
    U: FlowValue,
    F: Fn(C::Item) -> Result<Vec<U>, ChainFault>,
{
    ghost use Rattle.flow_law.specs.declared.chain.ChainFault.{ChainFault};

    type Item = U;

    ghost Reading = { C.Reading × (C.Item → Result (List U) ChainFault) };

    ghost CanAsk = { λ s. C.CanAsk (chain_of s.upstream) × F.IsAlwaysCallable s.closure };

    ghost Reads = { λ s m. C.Reads (chain_of s.upstream) m.0
        × ComputesBy (λ v. v.items) (F.post s.closure) m.1 };

    ghost whole = { λ s m. transform_run m.1 (C.whole (chain_of s.upstream) m.0) };

    ghost rest = { λ s m. unless_ended (is_ended s.upstream)
        (prepended (images_left (λ v. v.items) s.images)
        (transform_run m.1 (C.rest (chain_of s.upstream) m.0))) };

    // A list has fewer than 2 ^ 64 items.
    ghost bound = { record {
      most_asks = λ s. C.bound.most_asks (chain_of s.upstream) * 2 ^ 64
          + length (images_left (λ v. v.items) s.images);
      IsLimited = C.bound.IsLimited;
      limit = C.bound.limit * 2 ^ 64 + 2 ^ 64;
    } };

    ghost IsOver = { λ s. is_ended s.upstream ≡ true };

    ghost IsGiven = { λ s. C.IsGiven (chain_of s.upstream) × NeverRefuses (F.post s.closure) };

    ghost AsksBehind = { λ old m result new.
        Leaves (unless_empty (images_left (λ v. v.items) old.images)
        (C.rest (chain_of old.upstream) m.0)
        (after_transform m.1 (C.rest (chain_of old.upstream) m.0)))
        result (C.rest (chain_of new.upstream) m.0) };

    fn ask(&mut self) -> Asked<U> {
        if self.upstream.ended {
            return Asked::End;
        }
        loop {
            if let Some(item) = next_image(&mut self.images) {
                return Asked::Item(item);
            }
            match self.upstream.next() {
                Ok(item) => match images_of(&self.closure, item) {
                    Ok(images) => keep_images(&mut self.images, images),
                    Err(fault) => return self.upstream.fail(fault),
                },
                Err(asked) => return asked,
            }
        }
    }

    fn rewind(&mut self) {
        self.images = None;
        self.upstream.rewind();
    }

    ghost limited = { λ l s. Prim.grind (arith, common_steps, C.limited l (chain_of s.upstream)) };
}

/// Takes the next image. The images are kept in reverse.
fn next_image<U: FlowValue>(images: &mut Option<Vec<U>>) -> Option<U>
    ensures { MatchOption result
        (images_left (λ v. v.items) images.old ≡ [] × images.new ≡ None)
        (λ image. images_left (λ v. v.items) images.old ≡
        image ∷ images_left (λ v. v.items) images.new) }
{
    let mut kept = images.take()?;
    let image = kept.pop()?;
    *images = Some(kept);
    Some(image)
}

/// Keeps a list of images, in reverse.
fn keep_images<U: FlowValue>(kept: &mut Option<Vec<U>>, mut images: Vec<U>)
    ensures { images_left (λ v. v.items) kept.new ≡ images.items }
{
    images.reverse();
    *kept = Some(images);
}

/// Returns the list that the closure makes of an item, which is that of each function that the closure computes.
fn images_of<A, U, F>(closure: &F, item: A) -> Result<Vec<U>, ChainFault>
where
    U: FlowValue,
    F: Fn(A) -> Result<Vec<U>, ChainFault>,
    requires { F.IsAlwaysCallable closure.now }
    ensures given { NeverRefuses (F.post closure.now) → result ≢ Err ChainFault.OutOfMemory }
    ensures computes { (f : A → Result (List U) ChainFault) →
        ComputesBy (λ v. v.items) (F.post closure.now) f
        → FollowsBy (λ v. v.items) (f item) result }
{
    closure(item)
}
