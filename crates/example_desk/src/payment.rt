//! Payments.
use futures::Future;
use futures::task::{Context, Poll};

/// A payment, which the bank has made when it is asked for it a second time.
#[derive(Drop)]
pub struct Payment {
    pub(crate) asked: bool,
}

impl Future for Payment {
    type Output = ();

    fn poll(&mut self, cx: &mut Context<'_>) -> Poll<()> {
        if self.asked {
            return Poll::Ready(());
        }
        self.asked = true;
        cx.yield_now()
    }
}
