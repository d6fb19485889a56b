//! What each answer says of itself.

ghost use Rattle.std.specs.Prelude.{◌≡◌, [], ◌∷◌, ◌++◌, codes, OnOk};
ghost use Rattle.http_server.specs.Response.{fields_of};
ghost use Rattle.page_answers.specs.Guards.{guards};

use http::{HeaderValue, header};
use http_server::Response;
use std::alloc::AllocError;

/// The policy of `client/index.html` (CSP Level 3), and that no other page shows this one inside of it, which a page can't say of
/// itself.
pub(crate) const POLICY: &str =
    "default-src 'none'; script-src 'self'; style-src 'self'; img-src 'self'; connect-src 'self'; base-uri 'none'; form-action 'none'; require-trusted-types-for 'script'; trusted-types 'none'; frame-ancestors 'none'";

/// Adds what each answer says of itself.
pub(crate) fn add_guards(response: &mut Response) -> Result<(), AllocError>
    ensures fields { OnOk result (fields_of response.new ≡ fields_of response.old ++ guards) }
    ensures status { response.new.status ≡ response.old.status }
    ensures body { response.new.body ≡ response.old.body }
{
    response.add_header(header::CACHE_CONTROL, HeaderValue::from_static("no-cache"))?;
    response.add_header(
        header::X_CONTENT_TYPE_OPTIONS,
        HeaderValue::from_static("nosniff"),
    )?;
    response.add_header(
        header::REFERRER_POLICY,
        HeaderValue::from_static("no-referrer"),
    )?;
    add_policy(response)?;
    Ok(())
}

// Adds the policy.
fn add_policy(response: &mut Response) -> Result<(), AllocError>
    ensures fields { OnOk result
        (fields_of response.new ≡ fields_of response.old ++ (codes "content-security-policy", POLICY.now) ∷ []) }
    ensures status { response.new.status ≡ response.old.status }
    ensures body { response.new.body ≡ response.old.body }
{
    response.add_header(
        header::CONTENT_SECURITY_POLICY,
        HeaderValue::from_static(POLICY),
    )
}
