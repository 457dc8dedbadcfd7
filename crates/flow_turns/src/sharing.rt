//! A cold flow, the policy that starts and stops it, and its hub.
use crate::policy::Policy;
use flow_cold::Cold;

/// A cold flow that is collected into a hot one, a turn at a time, while its policy says so.
///
/// # Dropping
/// Dropping it drops the chain, the item that the flow has not accepted, and the hub. The hub's type says what the hub
/// leaves in its flow.
#[derive(Drop)]
pub struct Sharing<C: Cold, H> {
    pub(crate) chain: C,
    pub(crate) hub: H,
    pub(crate) policy: Policy,
    /// An item of the chain that the hub has not accepted.
    pub(crate) kept: Option<C::Item>,
    /// A stop made a cancel of the hub's emission due, which no turn has carried out yet.
    pub(crate) cancel_due: bool,
    /// An expiry made a reset of the flow due, which no turn has carried out yet.
    pub(crate) reset_due: bool,
    /// The chain has ended normally since the last start.
    pub(crate) completed: bool,
    /// The chain has failed.
    pub(crate) ended: bool,
}
