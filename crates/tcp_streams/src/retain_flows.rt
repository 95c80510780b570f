//! Which flows are kept.

ghost use Rattle.std.specs.Prelude.{◌≡◌, reverse};
ghost use Rattle.std.specs.List.Retain.{IsFiltered};
ghost use Rattle.ep_base.specs.Traits.{CopyIsValue, CopyNeverFails};
ghost use Rattle.tcp_streams.specs.Flows.{TestedAt};

use super::flow::Flow;
use lru::LruCache;
use std::hash::{BuildHasher, Hash};

// Keeps the flows for which the test returns `true`, and drops the others. The test is called for
// the last one, which then goes first or is taken away, as often as there are flows: so those that
// are kept stand in their order in the end.
pub(crate) fn retain_flows<
    T: Drop,
    K: Eq + Hash + Clone + Drop,
    S: BuildHasher,
    F: FnMut(&K, &Flow<T>) -> bool,
>(flows: &mut LruCache<K, Flow<T>, S>, mut keep: F)
    requires callable { F.IsAlwaysCallable keep }
    requires copies { CopyIsValue K.is_clone }
    requires never_fails { CopyNeverFails K.is_infallible }
    ensures flows { IsFiltered (TestedAt F.FnMut) keep (reverse flows.old.entries) (reverse flows.new.entries) }
    ensures most { flows.new.cap ≡ flows.old.cap }
{
    for _ in 0..flows.len() {
        let (key, flow) = flows.peek_lru().unwrap();
        let key = key.clone().unwrap();
        if keep(&key, flow) {
            flows.promote(&key);
        } else {
            drop(flows.pop_lru());
        }
    }
}
