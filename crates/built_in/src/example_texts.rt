//! The two documents, as JSON texts.
ghost use Rattle.kj_value.specs.Reading.{Reads};
ghost use Rattle.built_in.specs.Example.{definition_document, rules_document};

const DEFINITION: &str = r#"{
  "apiVersion": "apiextensions.k8s.io/v1",
  "kind": "CustomResourceDefinition",
  "metadata": {"name": "crontabs.example.com"},
  "spec": {
    "group": "example.com",
    "names": {"kind": "CronTab", "plural": "crontabs", "singular": "crontab"},
    "scope": "Namespaced",
    "versions": [
      {
        "name": "v1",
        "schema": {
          "openAPIV3Schema": {
            "properties": {
              "extra": {
                "properties": {"known": {"properties": {"a": {"type": "integer"}}, "type": "object"}},
                "type": "object",
                "x-kubernetes-preserve-unknown-fields": true
              },
              "host": {"type": "string"},
              "level": {"type": "integer"},
              "note": {"nullable": true, "type": "string"},
              "owner": {"type": "string"},
              "paused": {"default": false, "type": "boolean"},
              "port": {"type": "string"},
              "timeoutMillis": {"maximum": 1000999, "minimum": 0, "type": "integer"}
            },
            "type": "object"
          }
        },
        "served": true,
        "storage": false
      },
      {
        "name": "v1beta1",
        "schema": {
          "openAPIV3Schema": {
            "properties": {
              "extra": {
                "properties": {"known": {"properties": {"a": {"type": "integer"}}, "type": "object"}},
                "type": "object",
                "x-kubernetes-preserve-unknown-fields": true
              },
              "hostPort": {"type": "string"},
              "legacy": {"type": "string"},
              "note": {"nullable": true, "type": "string"},
              "paused": {"default": false, "type": "boolean"},
              "size": {"type": "string"},
              "timeoutSeconds": {"maximum": 1000, "minimum": 0, "type": "integer"}
            },
            "type": "object"
          }
        },
        "served": true,
        "storage": true
      }
    ]
  }
}
"#;

/// The definition, a CustomResourceDefinition of apiextensions.k8s.io/v1, as JSON text that ends with a line feed. The same
/// text stands in `examples/crontabs.json`.
pub fn definition() -> &'static str
    ensures { Reads result.now 100 definition_document }
{
    DEFINITION
}

/// The rules of conversion between its versions, as JSON text that ends with a line feed. The same text stands in
/// `examples/crontabs.rules.json`.
pub fn rules() -> &'static str
    ensures { Reads result.now 100 rules_document }
{
    r#"{
  "hub": "v1",
  "spokes": {
    "v1beta1": [
      {"split": {"hub": ["host", "port"], "spoke": "hostPort"}},
      {"scale": {"by": 1000, "names": ["timeoutSeconds", "timeoutMillis"]}},
      {
        "table": {
          "hubBlank": null,
          "names": ["size", "level"],
          "pairs": [["small", 1], ["large", 2]],
          "spokeBlank": null
        }
      },
      {"spokeOnly": "legacy"},
      {"hubOnly": "owner"}
    ]
  }
}
"#
}
