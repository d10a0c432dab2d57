//! The body that switches the storage version.
ghost use Rattle.std.specs.Prelude.{◌≡◌, true, false};
ghost use Rattle.kj_value.specs.Text.{text_of};
ghost use Rattle.drill_steps.specs.Settings.{stored_definition, switch_body};

fn stored_at_hub() -> &'static str
    ensures { result.now ≡ text_of (stored_definition true) }
{
    r#"{"apiVersion":"apiextensions.k8s.io/v1","kind":"CustomResourceDefinition","metadata":{"name":"crontabs.example.com"},"spec":{"group":"example.com","names":{"kind":"CronTab","plural":"crontabs","singular":"crontab"},"scope":"Namespaced","versions":[{"name":"v1","schema":{"openAPIV3Schema":{"properties":{"extra":{"properties":{"known":{"properties":{"a":{"type":"integer"}},"type":"object"}},"type":"object","x-kubernetes-preserve-unknown-fields":true},"host":{"type":"string"},"level":{"type":"integer"},"note":{"nullable":true,"type":"string"},"owner":{"type":"string"},"paused":{"default":false,"type":"boolean"},"port":{"type":"string"},"timeoutMillis":{"maximum":1000999,"minimum":0,"type":"integer"}},"type":"object"}},"served":true,"storage":true},{"name":"v1beta1","schema":{"openAPIV3Schema":{"properties":{"extra":{"properties":{"known":{"properties":{"a":{"type":"integer"}},"type":"object"}},"type":"object","x-kubernetes-preserve-unknown-fields":true},"hostPort":{"type":"string"},"legacy":{"type":"string"},"note":{"nullable":true,"type":"string"},"paused":{"default":false,"type":"boolean"},"size":{"type":"string"},"timeoutSeconds":{"maximum":1000,"minimum":0,"type":"integer"}},"type":"object"}},"served":true,"storage":false}]}}"#
}

fn stored_at_spoke() -> &'static str
    ensures { result.now ≡ text_of (stored_definition false) }
{
    r#"{"apiVersion":"apiextensions.k8s.io/v1","kind":"CustomResourceDefinition","metadata":{"name":"crontabs.example.com"},"spec":{"group":"example.com","names":{"kind":"CronTab","plural":"crontabs","singular":"crontab"},"scope":"Namespaced","versions":[{"name":"v1","schema":{"openAPIV3Schema":{"properties":{"extra":{"properties":{"known":{"properties":{"a":{"type":"integer"}},"type":"object"}},"type":"object","x-kubernetes-preserve-unknown-fields":true},"host":{"type":"string"},"level":{"type":"integer"},"note":{"nullable":true,"type":"string"},"owner":{"type":"string"},"paused":{"default":false,"type":"boolean"},"port":{"type":"string"},"timeoutMillis":{"maximum":1000999,"minimum":0,"type":"integer"}},"type":"object"}},"served":true,"storage":false},{"name":"v1beta1","schema":{"openAPIV3Schema":{"properties":{"extra":{"properties":{"known":{"properties":{"a":{"type":"integer"}},"type":"object"}},"type":"object","x-kubernetes-preserve-unknown-fields":true},"hostPort":{"type":"string"},"legacy":{"type":"string"},"note":{"nullable":true,"type":"string"},"paused":{"default":false,"type":"boolean"},"size":{"type":"string"},"timeoutSeconds":{"maximum":1000,"minimum":0,"type":"integer"}},"type":"object"}},"served":true,"storage":true}]}}"#
}

/// The body that switches the storage version behind so many switches.
pub(crate) fn switch_body(switches: u64) -> &'static str
    ensures { result.now ≡ switch_body switches }
{
    if switches % 2 == 0 {
        stored_at_hub()
    } else {
        stored_at_spoke()
    }
}
