//! Functions and methods of C, C++, Rust and the Linux kernel that access a location or keep accesses in order, by what they do.

use crate::quotes::has;
use crate::tables::is_exactly_one_of;

/// What a call does.
#[derive(Clone, Copy)]
pub enum Act {
    Store,
    Load,
    Exchange,
    /// It exchanges the location with 1.
    Test,
    Add,
    Subtract,
    Increase,
    Decrease,
    Compare,
    Fence,
    /// It keeps an order that TSO keeps already.
    NoFence,
    /// It holds back the compiler alone.
    Barrier,
    /// It waits, or begins or ends what no other core sees.
    Nothing,
    /// It begins or ends a thread.
    Thread,
    Lock,
    Unlock,
    And,
    Or,
    Xor,
    /// It writes what else is computed of the location's word, in one step.
    Compute,
}

/// Names of calls that do the same.
struct Named(&'static str, Act);

static CALLS: [Named; 20] = [
    Named(
        "fetch_or atomic_fetch_or atomic_fetch_or_explicit __atomic_fetch_or __atomic_or_fetch \
         __sync_fetch_and_or __sync_or_and_fetch atomic_or InterlockedOr",
        Act::Or,
    ),
    Named(
        "fetch_and atomic_fetch_and atomic_fetch_and_explicit __atomic_fetch_and __atomic_and_fetch \
         __sync_fetch_and_and __sync_and_and_fetch atomic_and InterlockedAnd",
        Act::And,
    ),
    Named(
        "fetch_xor atomic_fetch_xor atomic_fetch_xor_explicit __atomic_fetch_xor __atomic_xor_fetch \
         __sync_fetch_and_xor __sync_xor_and_fetch atomic_xor InterlockedXor",
        Act::Xor,
    ),
    Named(
        "fetch_nand __atomic_fetch_nand __sync_fetch_and_nand",
        Act::Compute,
    ),
    Named(
        "pthread_create pthread_join thrd_create thrd_join spawn thread join",
        Act::Thread,
    ),
    Named(
        "WRITE_ONCE smp_store smp_store_mb store atomic_store \
         atomic_store_explicit __atomic_store_n atomic_set set lazySet setRelease atomic_init \
         write_volatile rcu_assign_pointer \
         StoreInt32 StoreInt64 StoreUint32 StoreRelease STORE Store",
        Act::Store,
    ),
    Named(
        "READ_ONCE smp_load load get atomic_load atomic_load_explicit \
         __atomic_load_n atomic_read rcu_dereference ACCESS_ONCE \
         read_volatile LoadInt32 LoadInt64 LoadUint32 LOAD Load",
        Act::Load,
    ),
    Named(
        "xchg atomic_xchg exchange swap atomic_exchange \
         atomic_exchange_explicit __atomic_exchange_n __sync_lock_test_and_set \
         InterlockedExchange SwapInt32 SWAP",
        Act::Exchange,
    ),
    Named(
        "test_and_set atomic_flag_test_and_set atomic_flag_test_and_set_explicit \
         __atomic_test_and_set",
        Act::Test,
    ),
    Named(
        "fetch_add atomic_fetch_add atomic_fetch_add_explicit __atomic_fetch_add \
         __atomic_add_fetch __sync_fetch_and_add __sync_add_and_fetch atomic_add \
         atomic_add_return xadd InterlockedExchangeAdd _InterlockedExchangeAdd InterlockedAdd AddInt32 AddInt64 FAA faa",
        Act::Add,
    ),
    Named(
        "fetch_sub atomic_fetch_sub atomic_fetch_sub_explicit __atomic_fetch_sub \
         __atomic_sub_fetch __sync_fetch_and_sub __sync_sub_and_fetch atomic_sub \
         atomic_sub_return",
        Act::Subtract,
    ),
    Named(
        "atomic_inc atomic_inc_return atomic_fetch_inc atomic_inc_and_test InterlockedIncrement",
        Act::Increase,
    ),
    Named(
        "atomic_dec atomic_dec_return atomic_fetch_dec atomic_dec_and_test InterlockedDecrement",
        Act::Decrease,
    ),
    Named(
        "cmpxchg atomic_cmpxchg \
         compare_exchange compare_exchange_strong compare_exchange_weak compare_and_swap \
         atomic_compare_exchange_strong atomic_compare_exchange_weak \
         atomic_compare_exchange_strong_explicit atomic_compare_exchange_weak_explicit \
         __atomic_compare_exchange_n __sync_bool_compare_and_swap __sync_val_compare_and_swap \
         CAS cas try_cmpxchg InterlockedCompareExchange CompareAndSwapInt32",
        Act::Compare,
    ),
    Named(
        "fullFence smp_mb mb atomic_thread_fence thread_fence fence __sync_synchronize _mm_mfence \
         __builtin_ia32_mfence __faststorefence __atomic_thread_fence MemoryBarrier smp_mb__after_spinlock \
         smp_mb__before_atomic smp_mb__after_atomic mfence",
        Act::Fence,
    ),
    Named(
        "storeFence loadFence acquireFence releaseFence storeStoreFence loadLoadFence smp_rmb smp_wmb rmb wmb dma_rmb dma_wmb _mm_lfence _mm_sfence",
        Act::NoFence,
    ),
    Named(
        "Gosched onSpinWait yield __builtin_ia32_pause _mm_clflush _mm_pause cpu_relax spin_loop spin_loop_hint sched_yield yield_now rcu_read_lock \
         rcu_read_unlock printf puts usleep sleep free",
        Act::Nothing,
    ),
    Named(
        "barrier compiler_fence atomic_signal_fence __atomic_signal_fence _ReadWriteBarrier",
        Act::Barrier,
    ),
    Named(
        "spin_lock mutex_lock pthread_mutex_lock pthread_spin_lock mtx_lock lock EnterCriticalSection",
        Act::Lock,
    ),
    Named(
        "spin_unlock mutex_unlock pthread_mutex_unlock pthread_spin_unlock mtx_unlock unlock LeaveCriticalSection \
         __atomic_clear atomic_flag_clear __sync_lock_release clear",
        Act::Unlock,
    ),
];

/// What a function or a method of this name does with these arguments.
pub fn act_of(whole: &[u8], arguments: &[u8]) -> Option<Act> {
    let name = whole
        .strip_suffix(b"_relaxed")
        .or(whole.strip_suffix(b"_acquire"))
        .or(whole.strip_suffix(b"_release"))
        .unwrap_or(whole);
    let is_whole = is_exactly_one_of("__sync_lock_release", whole);
    for named in &CALLS {
        if is_exactly_one_of(named.0, if is_whole { whole } else { name }) {
            let is_weak = matches!(named.1, Act::Fence) && is_weak_order(arguments);
            return Some(if is_weak { Act::NoFence } else { named.1 });
        }
    }
    None
}

/// Parts of words that name such an order.
const WEAK: &str =
    "elaxed RELAXED elease RELEASE cquire ACQUIRE AcqRel acq_rel ACQ_REL rlx rel acq";

/// Whether arguments have an order of memory that is weaker than sequential consistency.
fn is_weak_order(arguments: &[u8]) -> bool {
    for word in WEAK.split(' ') {
        if has(arguments, word.as_bytes()) {
            return true;
        }
    }
    false
}

/// Whether a store by this function with these arguments is sequentially consistent, or by this method.
pub fn is_sequential(name: &[u8], arguments: &[u8], is_method: bool) -> bool {
    let is_known = is_exactly_one_of(
        "atomic_store atomic_store_explicit __atomic_store_n StoreInt32 StoreInt64 StoreUint32 \
         atomic_flag_clear __atomic_clear",
        name,
    );
    let is_known_method = is_method && is_exactly_one_of("store Store set clear", name);
    is_exactly_one_of("smp_store_mb", name)
        || ((is_known || is_known_method) && !is_weak_order(arguments))
}
