//! The object that a policy of any rule lets go of.
use crate::policy::AnyPolicy;
use replay_core::LetGo;

impl LetGo for AnyPolicy {
    fn let_go(&mut self, object: u32) {
        match self {
            AnyPolicy::Lru(policy) => policy.let_go(object),
            AnyPolicy::Fifo(policy) => policy.let_go(object),
            AnyPolicy::Clock(policy) => policy.let_go(object),
            AnyPolicy::Lfu(policy) => policy.let_go(object),
            AnyPolicy::Belady(policy) => policy.let_go(object),
            AnyPolicy::Sieve(policy) => policy.let_go(object),
            AnyPolicy::S3Fifo(policy) => policy.let_go(object),
            AnyPolicy::Gdsf(policy) => policy.let_go(object),
            AnyPolicy::Lfuda(policy) => policy.let_go(object),
            AnyPolicy::Gdsf98(policy) => policy.let_go(object),
            AnyPolicy::WTinyLfu(policy) => policy.let_go(object),
        }
    }
}
