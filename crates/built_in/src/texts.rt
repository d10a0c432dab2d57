//! The two documents, as JSON texts without spaces.
ghost use Rattle.std.specs.Prelude.{◌≡◌};
ghost use Rattle.built_in.specs.Texts.{definition_text, rules_text};

/// The definition, a CustomResourceDefinition of apiextensions.k8s.io/v1, as its compact JSON text.
pub fn definition() -> &'static str
    ensures { result.now ≡ definition_text }
{
    r#"{"apiVersion":"apiextensions.k8s.io/v1","kind":"CustomResourceDefinition","metadata":{"name":"crontabs.example.com"},"spec":{"group":"example.com","names":{"kind":"CronTab","plural":"crontabs"},"scope":"Namespaced","versions":[{"name":"v1","schema":{"openAPIV3Schema":{"properties":{"host":{"type":"string"}},"type":"object"}},"served":true,"storage":false},{"name":"v1beta1","schema":{"openAPIV3Schema":{"properties":{"address":{"type":"string"}},"type":"object"}},"served":true,"storage":true}]}}"#
}

/// The rules of conversion between its versions, as their compact JSON text.
pub fn rules() -> &'static str
    ensures { result.now ≡ rules_text }
{
    r#"{"hub":"v1","spokes":{"v1beta1":[{"same":["address","host"]}]}}"#
}
