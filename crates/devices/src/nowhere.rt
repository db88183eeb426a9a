//! What a line says of an item that goes nowhere.
use crate::printing::printable;
use primitive_json::Request;
use std::alloc::{AllocError, Global};

/// The subscription that a request notifies of, where it does.
pub(crate) fn subscription_of(request: &Request) -> Option<&[u8]> {
    let content = request.parts().pc.as_ref()?;
    let notification = content.as_obj()?.get(b"m2m:sgn")?;
    let reference = notification.as_obj()?.get(b"sur")?;
    Some(reference.as_text()?.entries())
}

/// The line: the target, and the subscription, where one sends the item.
pub(crate) fn line_of_nowhere(alloc: Global, request: &Request) -> Result<String, AllocError> {
    let target = printable(alloc, request.parts().to.entries())?;
    let target = target.as_str();
    match subscription_of(request) {
        Some(subscription) => {
            let subscription = printable(alloc, subscription)?;
            let subscription = subscription.as_str();
            format!(in alloc; "no host to send to: {target}, for {subscription}")
        }
        None => format!(in alloc; "no host to send to: {target}"),
    }
}
